// The numbers of the documents that have names: the width of a row, its columns, the limit of rows. `specs/Constants.antt` has the same for the
// definitions, with the documents' words, and the numbers of the refusals.

// A row of 49 cells. Rows are lent as plain numbers, so the type serves for its constants: document 01 has constants belong to their types.
#[derive(Clone, Copy)]
pub struct Row(pub usize);

impl Row {
    pub const WIDTH: usize = 49;

    // The most rows of a buffer.
    pub const MOST: usize = 16777216;
}

// A column of the row, where the code names one; of several columns the first. No enum: a number of it is an index of cells, and so a constant.
#[derive(Clone, Copy)]
pub struct Column(pub usize);

impl Column {
    pub const ADDR: usize = 6;

    pub const H4: usize = 18;

    pub const IN_SPAN: usize = 22;

    pub const GROUP_COUNT: usize = 23;

    pub const STACK: usize = 30;

    pub const B0: usize = 46;

    pub const HELPER: usize = 48;
}
