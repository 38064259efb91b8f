//! Looking up requests, by one query each.
ghost use Rattle.std.specs.Prelude.{◌≡◌, ◌≢◌, ◌<◌, ◌⊎◌, ℕ, Option, map, filter, slice_get, pos, [], ◌∷◌, Some, None, IfOk, IfErr, OnOk, OnErr};
ghost use Rattle.std.specs.Option.{option_map};
ghost use Rattle.history_keeper.specs.declared.lookup.Listed.{Listed};
ghost use Rattle.sqlite.specs.State.{HasCleanDisk};
ghost use Rattle.sqlite.specs.Held.{state};
ghost use Rattle.sqlite.specs.Order.{Row as Rowed};
ghost use Rattle.sqlite.specs.Values.{bound};
ghost use Rattle.sqlite.specs.declared.types.Value.TheVariants.{Int, Text};
ghost use Rattle.sql_records.specs.Held.{IsAtRest, IsUndisturbed, history_in, rows_in};
ghost use Rattle.sql_records.specs.Opened.{FindCall, ListCall};
ghost use Rattle.sql_records.specs.Opening.{Reads};
ghost use Rattle.history_keeper.specs.Lookups.{found_in, listed_in};
ghost use Rattle.sql_records.specs.Lookups.{IsFirstUnread, IsListFault, IsQueryFault, ReadsSome, damage_of, found_columns, found_of, first_found, has_event, has_number, listed_columns, listed_of, place_in};

use super::Records;
use crate::lookup::FindFault;
use crate::reading::{column_at, reply_in, request_in, request_number_in};
use history_keeper::{Found, Listed};
use request_ledger::{Request, RequestNumber};
use rights_lattice::{Amount, Event};
use sqlite::types::ValueRef;
use sqlite::{Alter, Connection, Row};
use std::alloc::Global;

const FIND: &str = "SELECT pos, reply, rest FROM entries WHERE number = ?1 ORDER BY pos";

const LIST: &str =
    "SELECT pos, number, verb, event, amount, target, reply, rest FROM entries WHERE event = ?1 ORDER BY pos";

fn number_param(number: RequestNumber) -> [ValueRef<'static>; 1]
    ensures { bound result ≡ Int (pos number) ∷ [] }
{
    [ValueRef::Int(number.get() as i64)]
}

fn event_param(event: &Event) -> [ValueRef<'_>; 1]
    ensures { bound result ≡ Text event.now ∷ [] }
{
    [ValueRef::Text(event.bytes())]
}

// The place and the reply of each row with this request number, by place.
fn find_rows<S: Alter>(
    conn: &mut Connection<S>,
    number: RequestNumber,
) -> Result<Vec<Row>, FindFault>
    requires rest { HasCleanDisk (state S.Store conn.old)
        → (count : ℕ) × IsAtRest (state S.Store conn.old) count }
    ensures rows { HasCleanDisk (state S.Store conn.new) → IfOk result (λ rows. rows.items ≡ map
        found_columns (filter (has_number number) (rows_in (state S.Store conn.old).now.trees))) }
    ensures reads { Reads S.Store conn.old conn.new result }
    ensures fault { HasCleanDisk (state S.Store conn.new)
        → IfErr result (IsQueryFault (state S.Store conn.old) (state S.Store conn.new)) }
    ensures shut { result ≢ Err FindFault.Shut }
    ensures damaged { (place : ℕ) → result ≢ Err (FindFault.Damaged place) }
{
    let params = number_param(number);
    Ok(conn.query_all(FIND, &params)?)
}

// What each row with this event says, by place.
fn list_rows<S: Alter>(conn: &mut Connection<S>, event: &Event) -> Result<Vec<Row>, FindFault>
    requires rest { HasCleanDisk (state S.Store conn.old)
        → (count : ℕ) × IsAtRest (state S.Store conn.old) count }
    ensures rows { HasCleanDisk (state S.Store conn.new)
        → IfOk result (λ rows. rows.items ≡ map listed_columns
        (filter (has_event event.now) (rows_in (state S.Store conn.old).now.trees))) }
    ensures reads { Reads S.Store conn.old conn.new result }
    ensures fault { HasCleanDisk (state S.Store conn.new)
        → IfErr result (IsQueryFault (state S.Store conn.old) (state S.Store conn.new)) }
    ensures shut { result ≢ Err FindFault.Shut }
    ensures damaged { (place : ℕ) → result ≢ Err (FindFault.Damaged place) }
{
    let params = event_param(event);
    Ok(conn.query_all(LIST, &params)?)
}

fn place_in(row: &Row) -> Option<u64>
    ensures { result ≡ place_in row.now }
{
    match column_at(row, 0) {
        ValueRef::Int(place) => u64::try_from(place).ok(),
        _ => None,
    }
}

#[tactic(auto, unfolding(crate::specs::Lookups::found_of))]
fn found_of(row: &Row) -> Option<Found>
    ensures { result ≡ found_of row.now }
{
    let place = place_in(row)?;
    let reply = reply_in(column_at(row, 1), column_at(row, 2))?;
    Some(Found { place, reply })
}

#[tactic(auto, unfolding(crate::specs::Lookups::listed_of))]
fn listed_of(row: &Row) -> Option<Listed>
    ensures { result ≡ listed_of row.now }
{
    let place = place_in(row)?;
    let number = request_number_in(column_at(row, 1))?;
    let request = request_in(
        column_at(row, 2),
        column_at(row, 3),
        column_at(row, 4),
        column_at(row, 5),
    )?;
    let reply = reply_in(column_at(row, 6), column_at(row, 7))?;
    Some(Listed {
        place,
        number,
        request,
        reply,
    })
}

// A row that does not read: its place, or 0 where it has none.
fn damaged(row: &Row) -> FindFault
    ensures { result ≡ damage_of row.now }
{
    FindFault::Damaged {
        place: place_in(row).unwrap_or(0),
    }
}

// What the first row says.
fn first_of(rows: &[Row]) -> Result<Option<Found>, FindFault>
    ensures ok { IfOk result (λ found. option_map Some found ≡ first_found rows.now) }
    ensures err { OnErr result (first_found rows.now ≡ Some None) }
    ensures damaged { IfErr result (λ fault. (values : Rowed)
        × (slice_get rows.now 0 ≡ Some values) × (fault ≡ damage_of values)) }
    ensures shut { result ≢ Err FindFault.Shut }
{
    match rows.first() {
        None => Ok(None),
        Some(row) => match found_of(row) {
            Some(found) => Ok(Some(found)),
            None => Err(damaged(row)),
        },
    }
}

// What each row says.
fn all_of(alloc: Global, rows: &[Row]) -> Result<Vec<Listed>, FindFault>
    ensures ok { IfOk result (λ listed. map Some listed.items ≡ map listed_of rows.now) }
    ensures damaged { IfErr result (λ fault. ((fault ≡ FindFault.Memory) × ReadsSome rows.now)
        ⊎ IsFirstUnread rows.now fault) }
    ensures shut { result ≢ Err FindFault.Shut }
{
    // The prover has to meet the types of what a `Listed` holds.
    let _: Option<Request> = None;
    let _: Option<Amount> = None;
    let mut all = Vec::new(alloc);
    'rows: for row in rows {
        let Some(listed) = listed_of(row) else {
            return Err(damaged(row));
        };
        all.push(listed)?;
    }
    Ok(all)
}

impl<S: Alter> Records<S> {
    /// The place and the reply of the request that is kept under this number, if there is one.
    ///
    /// After an error but `Shut` the records are shut; `Shut` changes nothing. `Damaged` comes only where the store
    /// does not return what was written to it.
    pub fn find(&mut self, number: RequestNumber) -> Result<Option<Found>, FindFault>
        ensures { FindCall S.Store self.old self.new number result }
    {
        if self.failures != 0 {
            return Err(FindFault::Shut);
        }
        let answer = find_first(&mut self.conn, number);
        if answer.is_err() {
            self.failures = 1;
        }
        answer
    }

    /// The requests that name the event, by place.
    ///
    /// After an error but `Shut` the records are shut; `Shut` changes nothing. `Damaged` comes only where the store
    /// does not return what was written to it.
    pub fn list(&mut self, event: Event) -> Result<Vec<Listed>, FindFault>
        ensures { ListCall S.Store self.old self.new event result }
    {
        if self.failures != 0 {
            return Err(FindFault::Shut);
        }
        let answer = list_all(self.alloc, &mut self.conn, &event);
        if answer.is_err() {
            self.failures = 1;
        }
        answer
    }
}

// What is kept under the number.
fn find_first<S: Alter>(
    conn: &mut Connection<S>,
    number: RequestNumber,
) -> Result<Option<Found>, FindFault>
    requires rest { HasCleanDisk (state S.Store conn.old)
        → (count : ℕ) × IsAtRest (state S.Store conn.old) count }
    ensures found { HasCleanDisk (state S.Store conn.new) → IfOk result
        (λ found. found ≡ found_in (history_in (state S.Store conn.old).now.trees) number) }
    ensures fault { HasCleanDisk (state S.Store conn.new)
        → IfErr result (IsQueryFault (state S.Store conn.old) (state S.Store conn.new)) }
    ensures still { HasCleanDisk (state S.Store conn.new)
        → OnErr result (IsUndisturbed (state S.Store conn.old) (state S.Store conn.new)) }
    ensures reads { Reads S.Store conn.old conn.new result }
    ensures shut { result ≢ Err FindFault.Shut }
{
    let rows = find_rows(conn, number)?;
    first_of(rows.as_slice())
}

// The requests that name the event.
fn list_all<S: Alter>(
    alloc: Global,
    conn: &mut Connection<S>,
    event: &Event,
) -> Result<Vec<Listed>, FindFault>
    requires rest { HasCleanDisk (state S.Store conn.old)
        → (count : ℕ) × IsAtRest (state S.Store conn.old) count }
    ensures listed { HasCleanDisk (state S.Store conn.new) → IfOk result (λ listed.
        listed.items ≡ listed_in (history_in (state S.Store conn.old).now.trees) event.now) }
    ensures fault { HasCleanDisk (state S.Store conn.new)
        → IfErr result (IsListFault (state S.Store conn.old) (state S.Store conn.new)
        (listed_in (history_in (state S.Store conn.old).now.trees) event.now)) }
    ensures still { HasCleanDisk (state S.Store conn.new)
        → OnErr result (IsUndisturbed (state S.Store conn.old) (state S.Store conn.new)) }
    ensures reads { Reads S.Store conn.old conn.new result }
    ensures shut { result ≢ Err FindFault.Shut }
{
    let rows = list_rows(conn, event)?;
    all_of(alloc, rows.as_slice())
}
