// This crate has section 7 of document 01: copying points under matrices, and the constant table of 48 signed axis orders.
#![tactic(auto)]

ghost use Rattle.std.specs.Prelude.{◌≡◌, ◌/◌, ◌≤◌, min, length, Ok};
ghost use Rattle.spec.specs.Limits.{max_count};
ghost use Rattle.spec.specs.Copying.{copies as copies_of, points as points_of, matrices, judge_copy, copy_out, copy_call};

use points::Points;
use spec::{Answer, MAX_COUNT, Refusal, Refused};

pub mod axes;
mod joining;
mod judging;
mod rows;

// Tells how many points of d floats there is room for, but never more than 2,048, since "copies over 2,048" are refused.
fn room(floats: usize, d: usize) -> usize
    requires { 1 ≤ d }
    ensures { result ≡ min max_count (floats / d) }
{
    MAX_COUNT.min(floats / d)
}

// Makes the copies and then their table, for points and matrices that passed. The number of cells that the table needs can exceed a word, so
// it is compared with the table's length by division.
fn copied(d: usize, from: &[f64], turns: &[f64], out: &mut [f64], table: &mut [u16]) -> Answer
    requires { judge_copy d from.now turns.now ≡ Ok tt }
    ensures { (result, out.new, table.new)
        ≡ copy_out (min max_count (length out.old / d)) (matrices d turns.now)
        (copies_of (matrices d turns.now) (points_of d from.now)) out.old table.old }
{
    let limit = room(out.len(), d);
    let points = Points {
        floats: from,
        dimension: d,
        count: from.len() / d,
    };
    let Some(n) = joining::copies(&points, turns, limit, out) else {
        return Err(Refused {
            why: Refusal::ShortSheet,
            kept: limit,
        });
    };
    let count = turns.len() / (d * d);
    if table.len() / count < n {
        return Err(Refused {
            why: Refusal::ShortSheet,
            kept: n,
        });
    }
    let copies = Points {
        floats: out,
        dimension: d,
        count: n,
    };
    if rows::write(&copies, turns, table) {
        return Ok(n);
    }
    rows::fill(table, count * n);
    Err(Refused {
        why: Refusal::Open,
        kept: n,
    })
}

// Copies points under matrices. Both come row by row; the copies and their table go to the two outputs.
pub fn copy(
    dimension: usize,
    points: &[f64],
    turns: &[f64],
    copies: &mut [f64],
    table: &mut [u16],
) -> Answer
    ensures { (result, copies.new, table.new)
        ≡ copy_call dimension points.now turns.now copies.old table.old }
{
    judging::judged(dimension, points, turns)?;
    copied(dimension, points, turns, copies, table)
}
