//! Which line of a script is refused, given the lines before it, and which targets are read.
ghost use Rattle.std.specs.Prelude.{◌≡◌, ◌↔◌, ℕ, List, None, Some};
ghost use Rattle.cli_script.specs.Line.{Line};
ghost use Rattle.cli_script.specs.Script.{first_fault, IsFirstFault, NoneFaulty};
ghost use Rattle.cli_script.specs.Targets.{IsReading, target_of};
ghost use Rattle.cli_script.specs.declared.script.InvalidScript.{InvalidScript};

/// A script has no fault exactly where none of its lines is faulty, given the lines before it. Else
/// its fault is that of the first faulty line.
pub fn first_fault_law()
    ensures valid { (lines : List Line) → (first_fault lines ≡ None) ↔ NoneFaulty lines }
    ensures first { (lines : List Line) (fault : InvalidScript) → first_fault lines ≡ Some fault
        → (before : List Line) × (faulty : Line) × (after : List Line)
        × IsFirstFault lines fault before faulty after }
{}

/// A target is read as `http_uri` reads it: its parts where the text has one of the forms of RFC
/// 9112, section 3.2, and else none.
pub fn target_law()
    ensures { (text : List ℕ) → IsReading text (target_of text) }
{}
