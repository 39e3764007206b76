// The image of stored bytes, a text's or a popup's, and of those anywhere in an image: their length, then they. Length and bytes come
// one by one, since they are parts of records of other crates, arrays of two sizes with no heap behind them.
ghost use Rattle.std.specs.Prelude.{◌≡◌, ◌+◌, ◌≤◌, length};
ghost use Rattle.std.proofs.lemmas.List.Edits.{sets};
ghost use Rattle.codec.specs.Writing.{put_at};
ghost use Rattle.images.specs.Text.{stored};

// Of a text: where its bytes stand, and its image's size, in include/crsf.h's words.
pub(crate) const TEXT_BYTES: usize = 1;

pub const TEXT_SIZE: usize = 52;

// At a place that has room for them.
pub(crate) fn put_at(out: &mut [u8], at: usize, len: usize, bytes: &[u8])
    requires { at + (length bytes.now + 1) ≤ length out.old }
    ensures { out.new ≡ sets out.old at (stored len bytes.now) }
{
    out[at] = (len % 256) as u8;
    codec::writer::put_bytes(out, at + 1, bytes);
}

// The image at the front, where all of it has room.
pub fn put(len: usize, bytes: &[u8], out: &mut [u8])
    ensures { out.new ≡ put_at out.old 0 (stored len bytes.now) }
{
    if out.len() <= bytes.len() {
        return;
    }
    put_at(out, 0, len, bytes);
}
