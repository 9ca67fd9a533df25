// These are the trials of copying that section "Trial solids" of document 01 marks P, as calls of the library: "under the 48, (1,0,0) has 6 copies,
// (1,1,1) 8, (1,2,3) 48. A quarter turn alone on (1,0): 14." What the paper says of the table is said here of the table that the library hands out.
// Each case lends its two outputs, whatever they hold. It promises that the answer and both outputs are those of the call, and what the answer is.
ghost use Rattle.std.specs.Prelude.{◌≡◌, [], ◌∷◌, map, length};
ghost use Rattle.std.specs.Float.{binary64};
ghost use Rattle.std.specs.Float.Ieee.{of_bits, neg};
ghost use Rattle.spec.specs.declared.Refusal.TheVariants.{Open};
ghost use Rattle.spec.specs.Refusal.{refused_with};
ghost use Rattle.spec.specs.Lists.{join};
ghost use Rattle.spec.specs.Float.{zero_f, one_f};
ghost use Rattle.spec.specs.Copying.{axis_orders, copy_call};
ghost use Rattle.matrix.specs.Reading.{corner};
ghost use Rattle.trials.specs.AxisOrders.{AxisOrderTable};

use copying::axes;
use float::DIMENSION;
use spec::Answer;

// Returns the table. Each entry is made by the rule, and every product of two entries is an entry.
pub fn axis_orders() -> [[[f64; DIMENSION]; DIMENSION]; 48]
    ensures { AxisOrderTable (map (corner 3) result) }
{
    axes::axis_orders()
}

// Returns the 48 matrices in the form in which a caller lends them to `copy`.
fn turns() -> [f64; 432]
    ensures { result ≡ join (join axis_orders) }
{
    let table = axes::axis_orders();
    axes::axis_turns(&table)
}

// Copies one point under the 48.
fn copies_of(point: [f64; 3], copies: &mut [f64], cells: &mut [u16]) -> Answer
    ensures { (result, copies.new, cells.new)
        ≡ copy_call 3 point (join (join axis_orders)) copies.old cells.old }
{
    let turns = turns();
    copying::copy(3, &point, &turns, copies, cells)
}

// Copies (1,0,0) under the 48, with room for just the 6 copies.
pub fn six_copies(copies: &mut [f64], cells: &mut [u16]) -> Answer
    requires { (length copies.old ≡ 18) × (length cells.old ≡ 288) }
    ensures as_defined { (result, copies.new, cells.new)
        ≡ copy_call 3 (one_f ∷ zero_f ∷ zero_f ∷ []) (join (join axis_orders)) copies.old cells.old }
    ensures value { result ≡ Ok 6 }
{
    let point = [1.0, 0.0, 0.0];
    copies_of(point, copies, cells)
}

// Copies (1,1,1) under the 48, with room for just the 8 copies.
pub fn eight_copies(copies: &mut [f64], cells: &mut [u16]) -> Answer
    requires { (length copies.old ≡ 24) × (length cells.old ≡ 384) }
    ensures as_defined { (result, copies.new, cells.new)
        ≡ copy_call 3 (one_f ∷ one_f ∷ one_f ∷ []) (join (join axis_orders)) copies.old cells.old }
    ensures value { result ≡ Ok 8 }
{
    let point = [1.0, 1.0, 1.0];
    copies_of(point, copies, cells)
}

// Copies (1,2,3) under the 48, with room for just the 48 copies.
pub fn forty_eight_copies(copies: &mut [f64], cells: &mut [u16]) -> Answer
    requires { (length copies.old ≡ 144) × (length cells.old ≡ 2304) }
    ensures as_defined { (result, copies.new, cells.new)
        ≡ copy_call 3 (map (of_bits binary64) (0x3ff0_0000_0000_0000 ∷ 0x4000_0000_0000_0000 ∷ 0x4008_0000_0000_0000 ∷ []))
        (join (join axis_orders)) copies.old cells.old }
    ensures value { result ≡ Ok 48 }
{
    let point = [1.0, 2.0, 3.0];
    copies_of(point, copies, cells)
}

// Copies (1,0) under a quarter turn alone, with room for the one copy. The image of that copy is not among the copies.
pub fn quarter_turn_alone(copies: &mut [f64], cells: &mut [u16]) -> Answer
    requires { (length copies.old ≡ 2) × (length cells.old ≡ 48) }
    ensures as_defined { (result, copies.new, cells.new)
        ≡ copy_call 2 (one_f ∷ zero_f ∷ []) (zero_f ∷ neg one_f ∷ one_f ∷ zero_f ∷ []) copies.old cells.old }
    ensures value { result ≡ refused_with Open 1 }
{
    let point = [1.0, 0.0];
    let turn = [0.0, -1.0, 1.0, 0.0];
    copying::copy(2, &point, &turn, copies, cells)
}
