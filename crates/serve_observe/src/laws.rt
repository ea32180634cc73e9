//! Laws of what is logged of the control plane.

ghost use Rattle.std.specs.Prelude.{List};
ghost use Rattle.serve_observe.specs.Control.{AreMinutesApart, ControlStep, logged_times};

/// Whatever happens to a control plane, its log says at most once a minute that its file cannot be read.
pub fn at_most_one_line_a_minute<F>()
    ensures { (steps : List (ControlStep F)) → AreMinutesApart (logged_times steps) }
{}
