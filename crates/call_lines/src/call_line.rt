//! What a call line comes to.
use records::card::Card;
use runs::call::Call;

/// One line of the text.
#[derive(Debug, Drop)]
pub enum CallLine {
    /// It asks this of the order.
    Call(Call),
    /// It puts this card in force for the lines after it.
    Card(Card),
}
