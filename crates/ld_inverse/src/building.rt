ghost use Rattle.std.specs.Prelude.{◌≡◌, IfOk, IfErr};
ghost use Rattle.std.specs.Arc.{arc_value};
ghost use Rattle.ld_inverse.specs.Inverses.{IsInverseOf};
ghost use Rattle.ld_inverse.specs.Tickets.{IsFor, IsNumberFor};

use crate::inverse::Inverse;
use crate::lengths::mapping_lengths;
use crate::offers::slots;
use crate::prefixes::{prefixes, sort_prefixes};
use crate::table::sort_offers;
use crate::terms::shortest_first;
use crate::ticket::BuildTicket;
use ld_ctx::View;
use ld_tree::NoMemory;
use std::alloc::Global;
use std::sync::Arc;

/// Builds the inverse of the context (Inverse Context Creation: JSON-LD 1.1 API, 4.3), in time n log n for n
/// terms, and spends the ticket for it. For want of memory the ticket is given back.
pub fn build<V: View>(
    alloc: Global,
    ticket: BuildTicket,
    ctx: &V,
) -> Result<Arc<Inverse>, (BuildTicket, NoMemory)>
    requires { IsFor ticket (V.numbered ctx.now) }
    ensures inverse { IfOk result (λ inverse. IsInverseOf (arc_value inverse) (V.flat ctx.now)) }
    ensures number { IfOk result (λ inverse. (arc_value inverse).number ≡ ticket.number) }
    ensures is_for { IfOk result (λ inverse. IsNumberFor (arc_value inverse).number (V.numbered ctx.now)) }
    ensures given_back { IfErr result (λ e. e.0 ≡ ticket) }
{
    match built(alloc, ticket.number(), ctx) {
        Ok(inverse) => {
            let _ = ticket.end();
            Ok(inverse)
        }
        Err(e) => Err((ticket, e)),
    }
}

fn built<V: View>(alloc: Global, number: Option<u32>, ctx: &V) -> Result<Arc<Inverse>, NoMemory>
    ensures inverse { IfOk result (λ inverse. IsInverseOf (arc_value inverse) (V.flat ctx.now)) }
    ensures number { IfOk result (λ inverse. (arc_value inverse).number ≡ number) }
{
    let inverse = tables(alloc, number, ctx)?;
    Ok(Arc::new(alloc, inverse)?)
}

fn tables<V: View>(alloc: Global, number: Option<u32>, ctx: &V) -> Result<Inverse, NoMemory>
    ensures inverse { IfOk result (λ inverse. IsInverseOf inverse (V.flat ctx.now)) }
    ensures number { IfOk result (λ inverse. inverse.number ≡ number) }
{
    let terms = shortest_first(alloc, ctx)?;
    let mut slots = slots(alloc, ctx, terms.as_slice())?;
    sort_offers(&mut slots)?;
    let mut prefixes = prefixes(alloc, ctx, terms.as_slice())?;
    let lengths = mapping_lengths(alloc, prefixes.as_slice())?;
    sort_prefixes(&mut prefixes)?;
    Ok(Inverse {
        slots,
        prefixes,
        lengths,
        number,
    })
}
