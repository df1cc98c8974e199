// An entry of the caller's list: a function's body, by its number, its first op and its op count.
#[repr(C)]
#[derive(Clone, Copy)]
pub struct Body {
    pub number: u32,
    pub first: u32,
    pub count: u32,
}
