//! Figures worked out by hand, or by an independent reading of the rules, which the definitions give: of the sheet, the base
//! shear, spreading, and an order's lines.
#![tactic(auto)]

ghost use Rattle.figures.specs.Figures.{Figures, FurtherFigures};

/// Does nothing: its contract is the list of worked figures, and a second list of what these leave out.
pub fn figures_stand()
    ensures sample { Figures }
    ensures further { FurtherFigures }
{}
