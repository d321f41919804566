// Tickets of one box, spent at another.
use crate::build::{Hub, open};
use common::Fault;
use concentrator::Ticket;
use std::test::Fail;

// The sender of the frame that the box writes for the ticket.
fn sender_written(hub: &mut Hub, ticket: Ticket) -> Result<u16, Fault> {
    let mut out = [0; 22];
    hub.write(ticket, &mut out)?;
    Ok(u16::from_be_bytes([out[4], out[5]]))
}

// Takes a ticket from each box and spends it at the other: the senders of the frames written.
fn cross(one: &mut Hub, other: &mut Hub) -> Result<(u16, u16), Fault> {
    let ticket = one.take()?;
    match other.take() {
        Ok(foreign) => {
            let first = sender_written(one, foreign);
            let second = sender_written(other, ticket);
            Ok((first?, second?))
        }
        Err(fault) => {
            sender_written(one, ticket)?;
            Err(fault)
        }
    }
}

#[test]
fn a_ticket_writes_at_another_box(rt: HostRuntime) -> Result<(), Fail> {
    let mut one = open(7)?;
    let mut other = open(8)?;
    let (first, second) = cross(&mut one, &mut other)?;
    assert_eq!(rt; first, 7);
    assert_eq!(rt; second, 8);
    Ok(())
}
