// What the programs have of the system: the input that an argument names, reading it, writing to standard output. An error is said on
// standard error, with the name that the caller gives.
//
// What the system answers is its own: the contracts say what is certain whatever it answers.
#![tactic(auto)]

ghost use Rattle.std.specs.Prelude.{[], ◌≡◌, ◌^◌, ◌<◌, ◌≤◌, IsOk, IfSome, length};
ghost use Rattle.console.specs.Names.{argument_of, name_of, NamedIn, PutsName, Sized};
ghost use Rattle.console.specs.Reading.{Within};
ghost use Rattle.std.specs.Io.{ReadsAtMost};

use codec::writer::put_bytes;
use std::env::FillError;
use std::fmt::InlineText;
use std::fs::File;
use std::io;
use std::io::{Read, Stdin};
use std::rt::Env;

// What is read: standard input, or a file, which is closed where this is dropped.
#[derive(Drop)]
pub enum Source {
    StandardInput(Stdin),
    File(File),
}

// An input, with the length of its name as an error tells it. (A length, and no slice: what may not change, the theorem `name-not-beyond`.)
#[derive(Drop)]
pub struct Opened {
    pub source: Source,
    pub len: usize,
}

// Why there is nothing was said on standard error.
#[derive(Clone, Copy)]
pub struct Said;

// (Three kinds without a value, so no Option: what may not change, `argument_of` in specs/Names.antt.)
// What an argument asks for: standard input; nothing that is known; or a file.
#[derive(Clone, Copy)]
enum Argument {
    StandardInput,
    Unknown,
    File,
}

// How long `: ` is.
const COLON: usize = 2;

// Linux's numbers of the errors that are found here: no argument has this place; a name is longer than its room; a name is not UTF-8, which
// no file's can be that std opens.
const EINVAL: i32 = 22;

const ENAMETOOLONG: i32 = 36;

const EILSEQ: i32 = 84;

// No text of an error is longer.
const ERROR_ROOM: usize = 256;

// `-`; another word that begins so, an option, and none is known; or a file.
fn argument_of(word: &[u8]) -> Argument
    ensures { result ≡ argument_of word.now }
{
    match word {
        [b'-'] => Argument::StandardInput,
        [b'-', ..] => Argument::Unknown,
        _ => Argument::File,
    }
}

// `PROGRAM: WHAT` at the front of `name`, where all of it has room: the answer is its length.
fn put_name(name: &mut [u8], program: &[u8], what: &[u8]) -> Option<usize>
    ensures { PutsName (name_of program.now what.now) result name.old name.new }
{
    let from = program.len() + COLON;
    let room = name.len().checked_sub(from)?;
    if room < what.len() {
        return None;
    }
    put_bytes(name, 0, program);
    put_bytes(name, program.len(), b": ");
    put_bytes(name, from, what);
    Some(from + what.len())
}

// What cannot be said on standard error is said nowhere.
fn say(rt: &HostRuntime, text: &[u8]) {
    let _ = rt.stderr().write_all(text);
}

// The C library's words of an error: std puts ` (os error NUMBER)` behind them.
fn words_of(told: &str) -> &str {
    match told.split_once(" (os error ") {
        Some((words, _)) => words,
        None => told,
    }
}

// `NAME: ERROR`.
fn fail(rt: &HostRuntime, name: &[u8], error: io::Error) -> Said {
    let told = InlineText::<ERROR_ROOM>::of(error);
    say(rt, name);
    say(rt, b": ");
    say(rt, words_of(told.as_str()).as_bytes());
    say(rt, b"\n");
    Said
}

// A name that has no room: there is no input that an error could tell.
fn no_room(rt: &HostRuntime, program: &[u8]) -> Said {
    say(rt, program);
    say(rt, b": no room for the input's name\n");
    Said
}

fn standard_input(rt: &HostRuntime, program: &[u8], name: &mut [u8]) -> Result<Opened, Said>
    ensures { NamedIn program.now result name.new }
{
    let Some(len) = put_name(name, program, b"standard input") else {
        return Err(no_room(rt, program));
    };
    Ok(Opened {
        source: Source::StandardInput(rt.stdin()),
        len,
    })
}

// A file, to be read.
fn open_read(rt: &HostRuntime, path: &[u8]) -> io::Result<File> {
    let path = std::str::from_utf8(path).map_err(|_| io::Error::from_raw_os_error(EILSEQ))?;
    File::open(rt, path)
}

// The file that `name` has from a place on.
fn open_file(rt: &HostRuntime, name: &[u8], from: usize) -> Result<Opened, Said>
    requires { from ≤ length name.now }
    ensures { Sized (length name.now) result }
{
    let file = open_read(rt, &name[from..]).map_err(|error| fail(rt, name, error))?;
    Ok(Opened {
        source: Source::File(file),
        len: name.len(),
    })
}

// The error that tells why an argument could not be taken.
fn taking(error: FillError) -> io::Error {
    match error {
        FillError::NotPresent => io::Error::from_raw_os_error(EINVAL),
        FillError::TooLong => io::Error::from_raw_os_error(ENAMETOOLONG),
    }
}

// An argument that could not be taken: `PROGRAM: argument`.
fn fail_argument(rt: &HostRuntime, program: &[u8], name: &mut [u8], error: FillError) -> Said {
    match put_name(name, program, b"argument") {
        Some(len) => fail(rt, &name[..len], taking(error)),
        None => fail(rt, program, taking(error)),
    }
}

// The one argument, behind `PROGRAM: ` in `name`.
fn open_argument(
    rt: &HostRuntime,
    program: &[u8],
    usage: &[u8],
    name: &mut [u8],
) -> Result<Opened, Said>
    ensures { NamedIn program.now result name.new }
{
    let Some(from) = put_name(name, program, b"") else {
        return Err(no_room(rt, program));
    };
    let end = match rt.arg(1, &mut name[from..]) {
        Ok(len) => from + len,
        Err(error) => return Err(fail_argument(rt, program, name, error)),
    };
    match argument_of(&name[from..end]) {
        Argument::StandardInput => standard_input(rt, program, name),
        Argument::Unknown => {
            say(rt, usage);
            Err(Said)
        }
        Argument::File => open_file(rt, &name[..end], from),
    }
}

// Whether the program was called with a word at this place.
fn is_given(rt: &HostRuntime, place: usize) -> bool {
    let mut none = [0u8; 0];
    !matches!(rt.arg(place, &mut none), Err(FillError::NotPresent))
}

// How many words the program was called with, its own name among them; beyond three they are not counted.
fn given_words(rt: &HostRuntime) -> usize {
    for place in 0..3 {
        if !is_given(rt, place) {
            return place;
        }
    }
    3
}

// The input that the program's argument names: standard input without one, or where it is `-`; else a file. `name` has its name as an error
// tells it, `PROGRAM: standard input` or `PROGRAM: FILE`. An option, or a second argument: the usage is said.
pub fn open_input(
    rt: &HostRuntime,
    program: &[u8],
    usage: &[u8],
    name: &mut [u8],
) -> Result<Opened, Said>
    ensures { NamedIn program.now result name.new }
{
    let given = given_words(rt);
    if given > 2 {
        say(rt, usage);
        return Err(Said);
    }
    if given < 2 {
        return standard_input(rt, program, name);
    }
    open_argument(rt, program, usage, name)
}

// One call of the system's.
fn read_once(source: &mut Source, input: &mut [u8]) -> io::Result<usize>
    ensures { ReadsAtMost result input.new }
{
    match source {
        Source::StandardInput(stdin) => stdin.read(input),
        Source::File(file) => file.read(input),
    }
}

// One read: how many bytes it gave, at the front, or None at the input's end.
pub fn read(
    rt: &HostRuntime,
    source: &mut Source,
    name: &[u8],
    input: &mut [u8],
) -> Result<Option<usize>, Said>
    ensures { Within result input.new }
{
    let count = read_once(source, input).map_err(|error| fail(rt, name, error))?;
    Ok((count > 0).then_some(count))
}

// Reads standard input until `input` is full, the input ends or a read fails, and returns how many bytes stand in front.
pub fn read_full(rt: &HostRuntime, input: &mut [u8]) -> usize
    ensures { result ≤ length input.new }
{
    let mut stdin = rt.stdin();
    let mut done: usize = 0;
    // no plainer: `done` counts what reads gave, and std's `read_exact` doesn't say how much there was
    while done < input.len() {
        match stdin.read(&mut input[done..]) {
            Ok(count) if count > 0 => done += count,
            _ => break,
        }
    }
    done
}

// The next `len` bytes of standard input, at the front of `space`. None where they have no room there, or the input ends before.
pub fn read_part<'a>(rt: &HostRuntime, space: &'a mut [u8], len: usize) -> Option<&'a [u8]>
    ensures { IfSome result (λ part. length part.now ≡ len) }
{
    if space.len() < len {
        return None;
    }
    let part = &mut space[..len];
    if read_full(rt, part) < len {
        return None;
    }
    Some(part)
}

// The next case of standard input: its length, two bytes, big-endian, and so many bytes. None at the input's end, and where a case is cut,
// which is said on standard output.
pub fn next_case<'a>(rt: &HostRuntime, space: &'a mut [u8]) -> Option<&'a [u8]>
    ensures { IfSome result (λ case. length case.now < 2 ^ 16) }
{
    let mut head = [0u8; 2];
    if read_full(rt, &mut head) == 0 {
        return None;
    }
    let case = read_part(rt, space, usize::from(u16::from_be_bytes(head)));
    if case.is_none() {
        let _ = rt.write_all(b"a case is cut\n");
    }
    case
}

// All of a text to standard output. A failure is said once, by the caller's name for it.
pub fn write_out(rt: &HostRuntime, text: &[u8], name: &[u8]) -> Result<(), Said>
    ensures { text.now ≡ [] → IsOk result }
{
    if text.is_empty() {
        return Ok(());
    }
    rt.stdout()
        .write_all(text)
        .map_err(|error| fail(rt, name, error))
}
