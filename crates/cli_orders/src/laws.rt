//! Laws of orders. Each law is a function that does nothing.
ghost use Rattle.cli_orders.specs.CheckLaws.{ChecksAsBooksDo};
ghost use Rattle.cli_orders.specs.OrderReplies.{OrdersAreReplied};

/// In each state the reply to a command of an order has a text, or it is a refusal or a fault
/// (`specs/OrderReplies.antt`).
pub fn orders_are_replied()
    ensures { OrdersAreReplied }
{}

/// If `check` refuses a file, an import of its octets, or a put of the card, has the same refusal
/// (`specs/CheckLaws.antt`).
pub fn checks_refuse_as_books_do()
    ensures { ChecksAsBooksDo }
{}
