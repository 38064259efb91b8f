//! The command `audit`: what all sites released, sold and took back, from their stopped books.

ghost use Rattle.std.specs.Prelude.{◌≡◌, ◌≢◌, IfOk, IfErr, IfSome, None, map};
ghost use Rattle.std.specs.Io.KnownBytes.{Keeps};
ghost use Rattle.operator_cli.specs.declared.status.Status.TheVariants.{Done, Failed};
ghost use Rattle.plain_words.specs.Writing.{AppendsFront};
ghost use Rattle.operator_cli.specs.declared.command_fault.CommandFault.TheVariants.{Write as WriteFailed};
ghost use Rattle.world_steps.specs.Audit.{IsWhole, books_of};
ghost use Rattle.book_core.specs.Books.{AreNotOversold};
ghost use Rattle.operator_cli.specs.CommandReply.{FaultTold};
ghost use Rattle.operator_cli.specs.Opened.{FailsFor};
ghost use Rattle.operator_cli.specs.Printed.{Printed, Unprinted};
ghost use Rattle.operator_cli.specs.Audited.{AreWithinSales, EndsAudited, IsAuditText, IsPartsText, sum_lines};

use crate::command_fault::CommandFault;
use crate::ending::{ended, write_line};
use crate::status::Status;
use crate::told::{CommandReply, ended_by_audit, tell};
use crate::totals::total_line;
use book_core::Book;
use history_keeper::Keeper;
use local_rights::Totals;
use rights_lattice::Event;
use site_desk::SiteBook;
use std::alloc::{AllocError, Global};
use std::io::Write;
use world_steps::{audit, is_whole};

// A line for each event with its sums.
fn write_sums<W: Write>(sums: &[(Event, Totals)], out: &mut W) -> Result<Status, CommandFault>
    requires { AreWithinSales sums.now }
    ensures out { IfOk result (Printed
        (λ status text. text ≡ sum_lines sums.now) (W.contents out.old) (W.contents out.new)) }
    ensures fault { IfErr result (λ fault. (fault ≡ WriteFailed)
        × AppendsFront (W.contents out.old) (W.contents out.new) (sum_lines sums.now)) }
    ensures status { IfOk result (λ status. status ≡ Done) }
{
    'sums: for (event, totals) in sums {
        write_line(&total_line(*event, *totals), out)?;
    }
    Ok(Status::Done)
}

/// Prints a line for each event with the sums over all books, or why they are not summed up. Behind want of memory nothing
/// is printed.
pub(crate) fn print_audit<W: Write>(
    alloc: Global,
    books: &[&Book],
    out: &mut W,
) -> Result<Status, CommandFault>
    ensures out { IfOk result
        (Printed (IsAuditText (books_of books.now)) (W.contents out.old) (W.contents out.new)) }
    ensures not_oversold { IfOk result
        (λ status. status ≡ Done → AreNotOversold (books_of books.now)) }
    ensures fault { IfErr result
        (Unprinted (IsAuditText (books_of books.now)) (W.contents out.old) (W.contents out.new)) }
    ensures ends { IfOk result (λ status. status ≢ Failed) }
{
    match audit(alloc, books) {
        Ok(sums) => write_sums(sums.as_slice(), out),
        Err(fault) => tell(&ended_by_audit(fault)?, out),
    }
}

// The books behind their keepers.
fn books_in<K: Keeper>(alloc: Global, sites: &[SiteBook<K>]) -> Result<Vec<&Book>, AllocError>
    ensures { IfOk result (λ books. books_of books.items ≡ map (λ site. site.book) sites.now) }
{
    let mut books = Vec::new(alloc);
    for site in sites {
        books.push(site.book())?;
    }
    Ok(books)
}

fn audit_all<K: Keeper, W: Write>(
    alloc: Global,
    sites: &[SiteBook<K>],
    out: &mut W,
) -> Result<Status, CommandFault>
    ensures out { IfOk result (Printed (IsAuditText (map (λ site. site.book) sites.now))
        (W.contents out.old) (W.contents out.new)) }
    ensures not_oversold { IfOk result
        (λ status. status ≡ Done → AreNotOversold (map (λ site. site.book) sites.now)) }
    ensures fault { IfErr result (Unprinted (IsAuditText (map (λ site. site.book) sites.now))
        (W.contents out.old) (W.contents out.new)) }
    ensures ends { IfOk result (λ status. status ≢ Failed) }
{
    let books = books_in(alloc, sites)?;
    print_audit(alloc, books.as_slice(), out)
}

/// Prints a line for each event that a site knows, rising, with what all sites released, sold and took back of it.
///
/// The k-th book is that of site k: `not-whole` where a book is of another site or counts more sites than there are
/// books, and `ahead VIEWER OWNER` where a site shows more of another's row than that site does, with status 1.
/// Whatever messages the sites took, no more is outstanding than was released where the status is 0. Want of memory and
/// a writer that fails are told on `err`, with status 3: nothing was printed at the first, and a front of it at the other.
/// No book changes.
pub fn audit_stores<K: Keeper, W: Write, E: Write>(
    alloc: Global,
    sites: &[SiteBook<K>],
    out: &mut W,
    err: &mut E,
) -> Status
    ensures audited { EndsAudited (map (λ site. site.book) sites.now)
        (W.contents out.old) (W.contents out.new) (E.contents err.old) (E.contents err.new) result }
    ensures not_oversold { result ≡ Done → AreNotOversold (map (λ site. site.book) sites.now) }
    ensures err { FaultTold (E.contents err.old) (E.contents err.new) result }
{
    let came = audit_all(alloc, sites, out);
    ended(came, out, err)
}

// What telling `not-whole` came to, where the books are not those of all sites; or want of memory to look at them.
fn refused_parts<K: Keeper, W: Write>(
    alloc: Global,
    sites: &[SiteBook<K>],
    out: &mut W,
) -> Option<Result<Status, CommandFault>>
    ensures whole { result ≡ None → IsWhole (map (λ site. site.book) sites.now)
        × Keeps (W.contents out.old) (W.contents out.new) }
    ensures out { IfSome result (λ came. IfOk came (Printed (IsPartsText
        (map (λ site. site.book) sites.now)) (W.contents out.old) (W.contents out.new))) }
    ensures fault { IfSome result (λ came. IfErr came (Unprinted (IsPartsText
        (map (λ site. site.book) sites.now)) (W.contents out.old) (W.contents out.new))) }
    ensures ends { IfSome result (λ came. IfOk came (λ status. status ≢ Failed)) }
{
    let Ok(books) = books_in(alloc, sites) else {
        return Some(Err(CommandFault::Memory));
    };
    if is_whole(books.as_slice()) {
        return None;
    }
    Some(tell(&CommandReply::NotWhole, out))
}

/// Prints `not-whole`, with status 1, where the books are not those of all sites, and nothing where they are.
///
/// They are where the k-th is that of site k, and counts no more sites than there are books. Want of memory and a writer that
/// fails are told on `err`, with status 3.
pub fn refuse_parts<K: Keeper, W: Write, E: Write>(
    alloc: Global,
    sites: &[SiteBook<K>],
    out: &mut W,
    err: &mut E,
) -> Option<Status>
    ensures whole { result ≡ None → IsWhole (map (λ site. site.book) sites.now)
        × Keeps (W.contents out.old) (W.contents out.new)
        × Keeps (E.contents err.old) (E.contents err.new) }
    ensures out { IfSome result (Printed (IsPartsText (map (λ site. site.book) sites.now))
        (W.contents out.old) (W.contents out.new)) }
    ensures err { IfSome result (FaultTold (E.contents err.old) (E.contents err.new)) }
    ensures cause { IfSome result
        (FailsFor (Unprinted (IsPartsText (map (λ site. site.book) sites.now))
        (W.contents out.old) (W.contents out.new)) (E.contents err.old) (E.contents err.new)) }
{
    let came = refused_parts(alloc, sites, out)?;
    Some(ended(came, out, err))
}
