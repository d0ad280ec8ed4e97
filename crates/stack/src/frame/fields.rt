// The fields of a frame, its first eight bytes, as a record that is lent and changed in
// place. One write of the byte would do: the form is kept as one of those that the product is
// to show (docs/DECISIONS.md, 17).
ghost use Rattle.std.specs.Prelude.{◌≡◌, length, set};
ghost use Rattle.layout.specs.Frame.{frame_overflow};
ghost use Rattle.stack.specs.Records.{record_of, bytes_of, overflowed};

use layout::offsets;

#[derive(Debug, Clone, Copy, PartialEq, Eq)]
pub struct FrameRecord {
    pub input: u8,
    pub step: u8,
    pub available: u8,
    pub reached: u8,
    pub provisional: u8,
    pub overflow: bool,
    pub head: u8,
    pub tracks: u8,
}

pub fn load(b: &[u8]) -> FrameRecord
    requires { length b.now ≡ 8 }
    ensures { result ≡ record_of b.now }
{
    FrameRecord {
        input: b[offsets::FRAME_INPUT],
        step: b[offsets::FRAME_STEP],
        available: b[offsets::FRAME_AVAILABLE],
        reached: b[offsets::FRAME_REACHED],
        provisional: b[offsets::FRAME_PROVISIONAL],
        overflow: b[offsets::FRAME_OVERFLOW] != 0,
        head: b[offsets::FRAME_IS_HEAD],
        tracks: b[offsets::FRAME_TRACKS],
    }
}

pub fn store(b: &mut [u8], f: FrameRecord)
    requires { length b.old ≡ 8 }
    ensures { b.new ≡ bytes_of f }
{
    b[offsets::FRAME_INPUT] = f.input;
    b[offsets::FRAME_STEP] = f.step;
    b[offsets::FRAME_AVAILABLE] = f.available;
    b[offsets::FRAME_REACHED] = f.reached;
    b[offsets::FRAME_PROVISIONAL] = f.provisional;
    b[offsets::FRAME_OVERFLOW] = u8::from(f.overflow);
    b[offsets::FRAME_IS_HEAD] = f.head;
    b[offsets::FRAME_TRACKS] = f.tracks;
}

// The mark itself, on a record that is lent.
pub fn mark(f: &mut FrameRecord)
    ensures { f.new ≡ overflowed f.old }
{
    f.overflow = true;
}

// A record in a local is lent to `mark`.
pub fn marked(r: FrameRecord) -> FrameRecord
    ensures { result ≡ overflowed r }
{
    let mut f = r;
    mark(&mut f);
    f
}

// The mark on a frame's first eight bytes.
pub fn mark_bytes(b: &mut [u8])
    requires { length b.old ≡ 8 }
    ensures { b.new ≡ set b.old frame_overflow 1 }
{
    let f = marked(load(b));
    store(b, f);
}
