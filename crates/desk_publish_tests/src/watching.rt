ghost use Rattle.std.specs.Prelude.{◌≡◌, ◌≤◌, IfSome};
ghost use mathlib.Core.List.{IsPrefix};
ghost use Rattle.desk_publish_tests.specs.Counts.{count_after};

use crate::counting::{Counting, Reading};
use desk_publish::{Naming, News, Seat};

/// Looks once. What is seen is the count of the seat's list, and no less than what the seat knew before.
pub fn look_once<J: Naming<Counting>>(seat: &mut Seat<Counting, J>) -> Option<u64>
    ensures counted { IfSome result (λ count. count ≡ count_after J.opening.count seat.new.list) }
    ensures begins { IsPrefix seat.old.list seat.new.list }
    ensures risen { IfSome result (λ count. count_after J.opening.count seat.old.list ≤ count) }
{
    let mut reading = Reading { count: 0 };
    seat.look(&mut reading).ok()?;
    Some(reading.count)
}

/// Learns the news and looks. What is seen is no less than what was told, nor than what the seat knew before.
#[tactic(auto, using(crate::proofs::Counted::count_rises))]
pub fn learn_and_look<J: Naming<Counting>>(
    seat: &mut Seat<Counting, J>,
    news: News<Counting, J>,
) -> Option<u64>
    ensures told { IfSome result (λ count. count_after J.opening.count news.list ≤ count) }
    ensures risen { IfSome result (λ count. count_after J.opening.count seat.old.list ≤ count) }
{
    seat.learn(news);
    look_once(seat)
}
