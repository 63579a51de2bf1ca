use crate::making::context;
use crate::selection::built;
use ld_inverse::BuildTicket;

#[test]
fn tells_the_number_of_a_ticket(rt: HostRuntime) {
    let alloc = rt.alloc();
    assert_eq!(rt; BuildTicket::own().end(), None);
    let ticket = BuildTicket::numbered(7);
    assert_eq!(rt; ticket.number(), Some(7));
    assert_eq!(rt; ticket.end(), Some(7));
    let ctx = context(&rt, alloc);
    assert_eq!(rt; built(&rt, alloc, &ctx).number(), None);
}
