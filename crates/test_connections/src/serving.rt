//! Feeds connections to a service.

use crate::parts::{CONNECTION, Connections};
use http_requests::{Handler, Session};
use test_support::{Printout, feed};

/// Prints the replies to a new connection with these octets, and whether it is closed then.
fn print_replies<H: Handler>(handler: &mut H, octets: &[u8], out: &mut Printout) {
    let mut session = Session::new(out.alloc());
    let fed = feed(out.alloc(), &mut session, handler, octets);
    if let Some(replies) = out.supply.keep(fed) {
        out.add_octets(replies.as_slice());
    }
    out.add(if session.closed() {
        "\n-- closed"
    } else {
        "\n-- open"
    });
}

/// Prints the replies to each connection, in their order, below its title if they are titled.
pub(crate) fn print_connections<H: Handler>(
    handler: &mut H,
    connections: Connections,
    are_titled: bool,
    out: &mut Printout,
) {
    let mut connections = connections;
    for _connection in 0..connections.most() {
        if connections.left.is_none() {
            return;
        }
        let connection = connections.first();
        if are_titled {
            out.add_octets(CONNECTION);
            out.add_octets(connection.title);
        }
        out.add("\n");
        print_replies(handler, connection.octets, out);
        connections = connection.others;
    }
}
