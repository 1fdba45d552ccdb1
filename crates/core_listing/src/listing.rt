// The listing of a trace: a header, and a line for each row. "Fields: row, name or opcode, addr, count".
use field::cell::cell;
use groups::constants::{Column, Row};
use reader::view::row;
use rows::records::buffer::decode_opcode;
use rows::records::profile::{Profile, opcodes_of};
use std::{fmt, io};

// The name of a control row, by its opcode's place in the profile. PUSH is an op, and has none.
fn control_name(place: usize) -> Option<&'static str> {
    match place {
        0 => Some("SPAN"),
        1 => Some("RESPAN"),
        2 => Some("JOIN"),
        3 => Some("SPLIT"),
        4 => Some("LOOP"),
        5 => Some("REPEAT"),
        6 => Some("CALL"),
        7 => Some("SYSCALL"),
        8 => Some("DYN"),
        9 => Some("DYNCALL"),
        11 => Some("END"),
        12 => Some("HALT"),
        _ => None,
    }
}

// What a row is: a control row by its name, an op by its opcode.
#[derive(Clone, Copy)]
enum RowName {
    Control(&'static str),
    Op(u64),
}

impl RowName {
    fn new(profile: Profile, opcode: u64) -> Self {
        let place = opcodes_of(profile)
            .iter()
            .position(|listed| u64::from(*listed) == opcode);
        match place.and_then(control_name) {
            Some(name) => Self::Control(name),
            None => Self::Op(opcode),
        }
    }
}

impl fmt::Display for RowName {
    fn fmt<W: fmt::Write>(&self, f: &mut fmt::Formatter<W>) -> fmt::Result {
        match self {
            Self::Control(name) => write!(f, "{name}"),
            Self::Op(opcode) => write!(f, "{opcode}"),
        }
    }
}

// The header, and the lines of all rows.
pub fn write_listing(rt: &impl Print, profile: Profile, cells: &[u64]) -> io::Result<()> {
    println!(rt; "row op addr count")?;
    for number in 0..cells.len() / Row::WIDTH {
        let row = row(cells, number);
        let name = RowName::new(profile, decode_opcode(row, 0));
        let addr = cell(row, Column::ADDR);
        let count = cell(row, Column::GROUP_COUNT);
        println!(rt; "{number} {name} {addr} {count}")?;
    }
    Ok(())
}

// The message of a refusal, by its number.
pub fn write_refusal(rt: &impl Print, number: u32) -> io::Result<()> {
    println!(rt; "refused: {number}")
}
