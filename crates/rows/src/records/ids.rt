// The 32-bit numbers that name a row, a context and a node: no call accepts one for another.
#[repr(C)]
#[derive(Clone, Copy)]
pub struct RowIndex(pub u32);

#[repr(C)]
#[derive(Clone, Copy)]
pub struct ContextId(pub u32);

#[repr(C)]
#[derive(Clone, Copy)]
pub struct MastNodeId(pub u32);
