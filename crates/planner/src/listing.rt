// The listing of a sealed plan against a stock.
ghost use Rattle.std.specs.Prelude.{◌≡◌, Some};
ghost use Rattle.node.specs.Limits.{max_kind};
ghost use Rattle.page.specs.Cursors.{Grows};
ghost use Rattle.planner.specs.Listings.{KindLine, Listed, ListedSole, kind_part, kinds_text, listing};

use crate::ListingFault;
use crate::lines::{kind_row, top_line, verdict_line};
use node::{MAX_KIND, Node, Top};
use page::{Cursor, Text, write};
use seal::Sealed;
use stock::{Stock, needed, shortage};
use text::LineBuffer;

/// What the planner says of a plan.
#[derive(Clone, Copy)]
pub struct Planned {
    /// The length of the listing.
    pub size: usize,
    /// The lowest kind that is short, and how many are missing; none where there is enough.
    pub short: Option<(u8, usize)>,
}

// The listing of a plan's nodes and their top against a stock, with what is short of it.
#[derive(Clone, Copy)]
struct Listing<'a> {
    nodes: &'a [Node],
    top: Top,
    stock: &'a Stock,
    short: Option<(u8, usize)>,
}

impl Listing<'_> {
    // The line of a kind, if it is needed.
    fn kind_line(&self, kind: u8) -> Option<LineBuffer>
        ensures { KindLine self.now.nodes.now self.now.stock.now kind result }
    {
        let wanted = needed(self.nodes, kind);
        if wanted == 0 {
            return None;
        }
        Some(kind_row(kind, wanted, self.stock.count(kind)))
    }

    // Appends the line of a kind, if it is needed.
    fn append_kind(&self, kind: u8, cursor: &mut Cursor)
        ensures { let part = kind_part self.now.nodes.now self.now.stock.now kind in
            Grows cursor.old part cursor.new }
    {
        if let Some(line) = self.kind_line(kind) {
            cursor.append(line.as_bytes());
        }
    }

    // Appends the lines of all kinds that are needed.
    fn append_kinds(&self, cursor: &mut Cursor)
        ensures { let lines = kinds_text self.now.nodes.now self.now.stock.now max_kind in
            Grows cursor.old lines cursor.new }
    {
        for kind in 1..=MAX_KIND {
            self.append_kind(kind, cursor);
        }
    }
}

impl Text for Listing<'_> {
    ghost use Rattle.std.proofs.Common.{sym, ◌∙◌};

    ghost says = { λ l bytes. bytes ≡ listing l.nodes.now l.top l.stock.now l.short };

    ghost sole = { λ l bytes others is same. is ∙ sym same };

    fn lay(&self, cursor: &mut Cursor) {
        cursor.append(top_line(self.top).as_bytes());
        self.append_kinds(cursor);
        cursor.append(verdict_line(self.short).as_bytes());
    }
}

// Writes the listing, where it has room.
fn listed(nodes: &[Node], top: Top, stock: &Stock, out: &mut [u8]) -> Result<Planned, ListingFault>
    ensures { Listed nodes.now (Some top) stock.now out.old out.new result }
{
    let short = shortage(nodes, stock);
    let listing = Listing {
        nodes,
        top,
        stock,
        short,
    };
    let size = write(&listing, out)?;
    Ok(Planned { size, short })
}

// What is told of a plan: of the empty plan, that it is enough.
fn told(plan: &Sealed, stock: &Stock, out: &mut [u8]) -> Result<Planned, ListingFault>
    ensures { Listed plan.now.nodes.now plan.now.top stock.now out.old out.new result }
{
    match plan.top() {
        Some(top) => listed(plan.nodes(), top, stock, out),
        None => Ok(Planned {
            size: 0,
            short: None,
        }),
    }
}

/// Plans a sealed plan, which it takes over, against a stock: writes the listing to the front of `out`, and says
/// what is short. Where there is no room for all of it, `out` is as it was; past the text it is, too. The empty
/// plan has an empty listing, and is enough.
pub fn plan(plan: Sealed, stock: &Stock, out: &mut [u8]) -> Result<Planned, ListingFault>
    ensures says { Listed plan.entry.nodes.now plan.entry.top stock.now out.old out.new result }
    ensures sole { ListedSole plan.entry.nodes.now plan.entry.top stock.now out.old out.new result }
{
    told(&plan, stock, out)
}
