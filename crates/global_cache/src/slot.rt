// A slot's bytes: held 0 or 1, result, required depth, how often the goal's part was run
// for it, then the nested goals, a byte for each goal.
ghost use Rattle.std.specs.Prelude.{◌≡◌, not, ◌&&◌, ◌∷◌, ◌+◌, eqb, length, get_or};
ghost use Rattle.definition.specs.GlobalCache.{slot_held, slot_result, slot_depth, slot_passes, slot_nested};

use definition::answers::Answer;

// How many bytes stand before the nested goals.
pub const FIELDS: usize = 4;

pub fn is_held(slot: &[u8]) -> bool
    ensures { result ≡ slot_held slot.now }
{
    buffer::get(slot, 0) == 1
}

// (Each field is a byte that is read as another type, so that one function for all would say less.)
pub fn result_of(slot: &[u8]) -> Answer
    ensures { result ≡ slot_result slot.now }
{
    Answer::from(buffer::get(slot, 1))
}

pub fn depth_of(slot: &[u8]) -> usize
    ensures { result ≡ slot_depth slot.now }
{
    usize::from(buffer::get(slot, 2))
}

// How often the goal's part was run.
pub fn passes_of(slot: &[u8]) -> u8
    ensures { result ≡ slot_passes slot.now }
{
    buffer::get(slot, 3)
}

pub fn nested_of(slot: &[u8]) -> &[u8]
    ensures { result.now ≡ slot_nested slot.now }
{
    if slot.len() < FIELDS {
        return &slot[0..0];
    }
    &slot[FIELDS..]
}

// Whether the slot holds another result than `res`, which is a byte as the slot's is.
pub fn conflicts(slot: &[u8], res: u8) -> bool
    ensures { result ≡ (slot_held slot.now && not (eqb (get_or slot.now 1 0) res)) }
{
    is_held(slot) && buffer::get(slot, 1) != res
}

// The bytes of a held slot.
pub fn write(slot: &mut [u8], res: u8, required: u8, passes: u8, nested: &[u8])
    requires { length slot.old ≡ 4 + length nested.now }
    ensures { slot.new ≡ 1 ∷ res ∷ required ∷ passes ∷ nested.now }
{
    slot[..FIELDS].copy_from_slice(&[1, res, required, passes]);
    slot[FIELDS..].copy_from_slice(nested);
}
