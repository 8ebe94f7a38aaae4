//! Laws of codes, packings and boxes, as contracts of functions that do nothing.

ghost use Rattle.std.specs.Prelude.{◌≡◌, ℕ, ◌+◌, ◌*◌, ◌^◌, ◌<◌, List, length, slice_index_or};
ghost use Rattle.std.specs.Int.{bit_at};
ghost use Rattle.live_model.specs.declared.points.Point.{Point};
ghost use Rattle.live_model.specs.declared.points.Rect.{Rect};
ghost use Rattle.box_tree.specs.Packing.{code, IsPacking};
ghost use Rattle.box_tree.specs.Trees.{Holds, around};

/// Bit 2k of a code is bit k of x, bit 2k + 1 is bit k of y, and there are 64 bits.
pub fn bits_of_codes()
    ensures even { (p : Point) (k : ℕ) → k < 32 → bit_at (code p) (2 * k) ≡ bit_at p.x k }
    ensures odd { (p : Point) (k : ℕ) → k < 32 → bit_at (code p) (2 * k + 1) ≡ bit_at p.y k }
    ensures bits { (p : Point) → code p < 2 ^ 64 }
{}

/// Items have one packing.
pub fn one_packing()
    ensures { (items : List (Rect × ℕ)) (a b : List ℕ) → IsPacking items a → IsPacking items b → a ≡ b }
{}

/// The box around some boxes holds each of them, and lies in each box that does.
pub fn smallest_box()
    ensures holds { (boxes : List Rect) (place : ℕ) (d : Rect) → place < length boxes → Holds (around boxes) (slice_index_or boxes place d) }
    ensures least { (boxes : List Rect) (outer : Rect) → 0 < length boxes → ((place : ℕ) (d : Rect) → place < length boxes → Holds outer (slice_index_or boxes place d)) → Holds outer (around boxes) }
{}
