ghost use Rattle.std.specs.Prelude.{◌≡◌, ◌==◌, ◌&&◌, ◌+◌, ◌-◌, ◌<◌, ◌^◌, false, true, ℕ, count_by, length, nat_le, slice_index_or, if◌then◌else◌, IfOk, MatchOption};
ghost use Rattle.std.specs.List.{list_all};
ghost use Rattle.desk_model.specs.declared.rows.ticket.TicketRow.{TicketRow};
ghost use Rattle.desk_history.specs.Breaches.{is_number_once};

use desk_model::TicketRow;
use desk_text::OutOfMemory;
use std::alloc::Global;

/// The place of the first ticket whose number isn't one of 1 to their count, or stands at another ticket too.
///
/// It takes two passes over the tickets.
pub(crate) fn odd_number(alloc: Global, tickets: &[TicketRow]) -> Result<Option<usize>, OutOfMemory>
    ensures { IfOk result (λ place. MatchOption place
        (list_all (λ ticket. is_number_once tickets.now ticket.number) tickets.now ≡ true)
        (λ place. (place < length tickets.now) × ((d : TicketRow) → is_number_once tickets.now (slice_index_or tickets.now place d).number ≡ false))) }
{
    let counts = counts_of_numbers(alloc, tickets)?;
    Ok(first_odd(tickets, counts.as_slice()))
}

/// The place of the first ticket whose number isn't counted once.
fn first_odd(tickets: &[TicketRow], counts: &[u64]) -> Option<usize>
    requires len { length counts.now ≡ length tickets.now }
    requires counts { (place : ℕ) → place < length tickets.now
        → slice_index_or counts.now place 0 ≡ count_by (λ ticket. ticket.number == place + 1) tickets.now }
    ensures { MatchOption result
        (list_all (λ ticket. is_number_once tickets.now ticket.number) tickets.now ≡ true)
        (λ place. (place < length tickets.now) × ((d : TicketRow) → is_number_once tickets.now (slice_index_or tickets.now place d).number ≡ false)) }
{
    for (place, ticket) in tickets.iter().enumerate() {
        if !is_once(tickets, counts, ticket.number) {
            return Some(place);
        }
    }
    None
}

/// Whether the number is one of 1 to the count of the tickets, and stands at one of them alone.
fn is_once(_tickets: &[TicketRow], counts: &[u64], number: u64) -> bool
    requires len { length counts.now ≡ length _tickets.now }
    requires counts { (place : ℕ) → place < length _tickets.now
        → slice_index_or counts.now place 0 ≡ count_by (λ ticket. ticket.number == place + 1) _tickets.now }
    ensures { result ≡ is_number_once _tickets.now number }
{
    count_at(counts, number) == 1
}

/// Of each number from 1 on, as many of them as there are tickets, how many tickets have it.
fn counts_of_numbers(alloc: Global, tickets: &[TicketRow]) -> Result<Vec<u64>, OutOfMemory>
    ensures len { IfOk result (λ counts. length counts.items ≡ length tickets.now) }
    ensures counts { IfOk result (λ counts. (place : ℕ) → place < length tickets.now
        → slice_index_or counts.items place 0 ≡ count_by (λ ticket. ticket.number == place + 1) tickets.now) }
{
    let mut counts = vec![in alloc; 0; tickets.len()]?;
    for ticket in tickets {
        count(counts.as_mut_slice(), ticket.number);
    }
    Ok(counts)
}

/// Counts the number, where it is one of 1 to the length.
fn count(counts: &mut [u64], number: u64)
    requires { (place : ℕ) → place < length counts.old → slice_index_or counts.old place 0 + 1 < 2 ^ 64 }
    ensures len { length counts.new ≡ length counts.old }
    ensures counts { (place : ℕ) → place < length counts.old
        → slice_index_or counts.new place 0 ≡ slice_index_or counts.old place 0 + (if number == place + 1 then 1 else 0) }
{
    if number == 0 || number > counts.len() as u64 {
        return;
    }
    counts[(number - 1) as usize] += 1;
}

/// How often the number was counted; one out of the range never was.
fn count_at(counts: &[u64], number: u64) -> u64
    ensures { result ≡ (if nat_le 1 number && nat_le number (length counts.now) then slice_index_or counts.now (number - 1) 0 else 0) }
{
    if 1 <= number && number <= counts.len() as u64 {
        counts[(number - 1) as usize]
    } else {
        0
    }
}
