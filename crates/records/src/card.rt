//! The card: what the engineer settles for one direction of analysis.

/// The kind of ground.
#[derive(Clone, Copy, Debug, PartialEq, Eq)]
pub enum Soil {
    I,
    II,
    III,
}

/// The building's group of importance.
#[derive(Clone, Copy, Debug, PartialEq, Eq)]
pub enum Group {
    B,
    A,
    AA,
}

/// How brittle walls stand to the frame.
#[derive(Clone, Copy, Debug, PartialEq, Eq)]
pub enum Walls {
    /// Tied to the frame (mark W).
    Tied,
    /// None, or detached (mark N).
    Detached,
}

/// The twelve fields, in their order.
#[derive(Clone, Copy, Debug, PartialEq, Eq)]
pub struct Card {
    pub soil: Soil,
    pub group: Group,
    /// Seismic coefficient c, in thousandths.
    pub c: u32,
    /// Ordinate a0 of the spectrum at period 0, in thousandths.
    pub a0: u32,
    /// Period Ta where the plateau begins, in hundredths of a second.
    pub ta: u32,
    /// Period Tb where the plateau ends, in hundredths of a second.
    pub tb: u32,
    /// Period T of the building in hundredths of a second; nothing where it is unknown.
    pub period: Option<u32>,
    /// Seismic behaviour factor Q, in tenths.
    pub q: u32,
    /// Correction of Q' for irregularity, in hundredths.
    pub correction: u32,
    pub walls: Walls,
    /// Load factor g, in hundredths.
    pub load_factor: u32,
    /// Gap to the boundary, in mm.
    pub gap: u32,
}
