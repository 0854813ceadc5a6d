//! The rows of the ten tables.

mod candidate;
mod exemption;
mod line;
mod material;
mod member;
mod part;
mod product;
mod shipment;
mod substance;
mod ticket;

pub use candidate::CandidateRow;
pub use exemption::ExemptionRow;
pub use line::LineRow;
pub use material::MaterialRow;
pub use member::MemberRow;
pub use part::PartRow;
pub use product::ProductRow;
pub use shipment::ShipmentRow;
pub use substance::SubstanceRow;
pub use ticket::TicketRow;
