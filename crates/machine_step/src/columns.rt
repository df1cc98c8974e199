// A patch that is read, as a step is lent it: its columns, and its bytes.
ghost use Rattle.std.specs.Prelude.{ℕ, ◌<◌, slice_index};

// Of each op its row, what it counts, the lanes that it needs, its payload's place, its partner and an If's Else; the places of the marks; and the bytes.
#[derive(Clone, Copy)]
pub struct Columns<'a> {
    pub rows: &'a [u8],
    pub counts: &'a [u16],
    pub needs: &'a [u16],
    pub payloads: &'a [u32],
    pub partners: &'a [u16],
    pub turns: &'a [u16],
    pub marks: &'a [u16],
    pub bytes: &'a [u8],
    ghost fits: { (i : ℕ) → slice_index bytes.now i < 256 },
}
