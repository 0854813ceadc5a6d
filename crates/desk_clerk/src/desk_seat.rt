use crate::board::DeskBoard;
use desk_publish::{News, Seat};

/// A seat at a desk: what one thread reads the published tables from, for one connection after another.
pub type DeskSeat<J> = Seat<DeskBoard, J>;

/// What a clerk tells of its list, for a seat to learn.
pub type DeskNews<J> = News<DeskBoard, J>;
