// A command judged, and written in place.
ghost use Rattle.std.specs.Prelude.{◌≡◌, ◌+◌, ◌≤◌, length};
ghost use Rattle.commands.specs.Command.{made_none, made_screen, made, stored_in};
ghost use Rattle.commands.specs.Writing.{body_of, room_of, WritesBody, WritesMade};
ghost use Rattle.commands.specs.Closing.{closed};

use crate::{DirectCommands, MAX_PAYLOAD_SIZE};
use codec::refusal::Refusal;
use families::payload::CommandPayload;
use families::screen::ScreenCommand;

// Nothing is stored beside most commands.
fn stores_none(bytes: &[u8], len: usize) -> bool
    ensures { result ≡ made_none len bytes.now }
{
    families::text::made_bytes(bytes, len, 0)
}

fn screen_made(command: ScreenCommand, bytes: &[u8], len: usize) -> bool
    ensures { result ≡ made_screen command len bytes.now }
{
    match command {
        ScreenCommand::PopupMessageStart => families::screen::made(bytes, len),
        ScreenCommand::SelectionReturnValue { value, response } => stores_none(bytes, len),
    }
}

// "room R = min(length, 60) - 4"
fn room_of(n: usize) -> usize
    requires { 4 ≤ n }
    ensures { (result ≡ room_of n) × ((result + 4 ≤ n) × (result ≤ 56)) }
{
    if MAX_PAYLOAD_SIZE < n {
        return MAX_PAYLOAD_SIZE - DirectCommands::MIN_PAYLOAD_SIZE;
    }
    n - DirectCommands::MIN_PAYLOAD_SIZE
}

// What stands around a body of n bytes: addresses and id before it, the check behind it.
fn close(dst: u8, src: u8, id: u8, n: usize, buffer: &mut [u8])
    requires { n + 4 ≤ length buffer.old }
    ensures { buffer.new ≡ closed dst src id n buffer.old }
{
    buffer[0] = dst;
    buffer[1] = src;
    buffer[2] = id;
    let check = crc::payload_check(DirectCommands::PACKET_TYPE, &buffer[..n + 4]);
    buffer[n + 3] = check;
}

impl DirectCommands {
    pub(crate) fn is_made(&self) -> bool
        ensures { result ≡ made self.now }
    {
        match self.payload {
            CommandPayload::Screen(command) => screen_made(command, &self.bytes, self.len),
            CommandPayload::Ack(_) => families::ack::made(&self.bytes, self.len),
            _ => stores_none(&self.bytes, self.len),
        }
    }

    // The body, with what is stored beside it.
    fn write_body(&self, body: &mut [u8]) -> Result<usize, Refusal>
        ensures { WritesBody self.now.payload (stored_in self.now) result body.old body.new }
    {
        match self.payload {
            CommandPayload::Fc(c) => families::fc::write_to(c, body),
            CommandPayload::Osd(c) => families::osd::write_to(c, body),
            CommandPayload::Vtx(c) => families::vtx::write_to(c, body),
            CommandPayload::Led(c) => families::led::write_to(c, body),
            CommandPayload::General(c) => families::general::write_to(c, body),
            CommandPayload::Crossfire(c) => families::crossfire::write_to(c, body),
            CommandPayload::FlowControl(c) => families::flow_control::write_to(c, body),
            CommandPayload::Screen(c) => families::screen::write_to(c, &self.bytes, self.len, body),
            CommandPayload::Ack(c) => families::ack::write_to(c, &self.bytes, self.len, body),
        }
    }

    // The payload, of a command that is made.
    pub(crate) fn write_made(&self, buffer: &mut [u8]) -> Result<usize, Refusal>
        requires { 4 ≤ length buffer.old }
        ensures { WritesMade self.now.dst_addr self.now.src_addr self.now.payload (stored_in self.now) result buffer.old buffer.new }
    {
        let end = room_of(buffer.len()) + 3;
        let n = self.write_body(&mut buffer[3..end])?;
        let id = families::payload::command_id(self.payload);
        close(self.dst_addr, self.src_addr, id, n, buffer);
        Ok(n + 4)
    }

    // How many bytes `write_body` writes, counted and not written.
    pub(crate) fn body_len(&self) -> usize
        ensures value { result ≡ length (body_of self.now.payload (stored_in self.now)) }
        ensures upper_bound { result ≤ 64 }
    {
        match self.payload {
            CommandPayload::Fc(c) => families::fc::written_len(c),
            CommandPayload::Osd(c) => families::osd::written_len(c),
            CommandPayload::Vtx(c) => families::vtx::written_len(c),
            CommandPayload::Led(c) => families::led::written_len(c),
            CommandPayload::General(c) => families::general::written_len(c),
            CommandPayload::Crossfire(c) => families::crossfire::written_len(c),
            CommandPayload::FlowControl(c) => families::flow_control::written_len(c),
            CommandPayload::Screen(c) => families::screen::written_len(c, &self.bytes, self.len),
            CommandPayload::Ack(c) => families::ack::written_len(c, &self.bytes, self.len),
        }
    }
}
