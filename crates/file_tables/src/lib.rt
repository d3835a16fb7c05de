// The rows of a saved drawing, read into tables: the horizontal wires, the vertical ones behind them, the components.
#![tactic(auto)]

ghost use Rattle.std.specs.Prelude.{◌≡◌, drop, MatchResult};
ghost use Rattle.saved.specs.Reading.{take_sheet};
ghost use Rattle.groups.specs.Taken.{refused};
ghost use Rattle.refusal.specs.Numbers.{number_of};
ghost use Rattle.file_rows.specs.Answers.{Got};
ghost use Rattle.file_tables.specs.Tables.{TabledAs};

use file_rows::{read_level, read_part, read_rows, read_upright};
use groups::read_in;
use refusal::Refusal;
use sheet::{Components, Wires, ZERO_COMPONENT, ZERO_WIRE};

// The tables, and the index behind what was read.
#[derive(Clone, Copy)]
pub struct TablesRead {
    pub wires: Wires,
    pub parts: Components,
    pub next: usize,
}

// All rows of a drawing, from an index on.
pub fn read_tables(bytes: &[u8], at: usize) -> Result<TablesRead, Refusal>
    ensures { MatchResult result (λ t. Got (take_sheet (drop at bytes.now)) bytes.now t.next (TabledAs t.wires t.parts)) (λ e. take_sheet (drop at bytes.now) ≡ refused (number_of e)) }
{
    let (h, at) = read_in(bytes, at, 0, 512)?;
    let mut wires = Wires::empty(ZERO_WIRE);
    let levels_end = read_rows(read_level, bytes, at, h as usize, &mut wires)?;
    let (v, at) = read_in(bytes, levels_end, 0, 512 - h)?;
    let uprights_end = read_rows(read_upright, bytes, at, v as usize, &mut wires)?;
    let (n, at) = read_in(bytes, uprights_end, 0, 128)?;
    let mut parts = Components::empty(ZERO_COMPONENT);
    let next = read_rows(read_part, bytes, at, n as usize, &mut parts)?;
    Ok(TablesRead { wires, parts, next })
}
