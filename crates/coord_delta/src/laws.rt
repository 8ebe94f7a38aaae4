//! Laws of lists of points. Each is the contract of a function that does nothing.

ghost use Rattle.std.specs.Prelude.{◌≡◌, ℕ, List};
ghost use Rattle.std.specs.List.{AllByRecursion};
ghost use Rattle.live_model.specs.declared.points.Point.{Point};
ghost use Rattle.live_model.specs.Points.{IsInGrid};
ghost use Rattle.coord_delta.specs.Steps.{point_list, ArePoints};

/// The spelling of points of the grid is read as these points.
pub fn points_again()
    ensures { (points : List Point) → AllByRecursion IsInGrid points → ArePoints (point_list points) points }
{}

/// Bytes are one list of points at most, and points have one spelling.
pub fn one_reading()
    ensures points { (bytes : List ℕ) (a b : List Point) → ArePoints bytes a → ArePoints bytes b → a ≡ b }
    ensures spelling { (bytes : List ℕ) (points : List Point) → ArePoints bytes points → bytes ≡ point_list points }
{}
