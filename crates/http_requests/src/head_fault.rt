//! The faults of a request head.
ghost use Rattle.std.specs.Prelude.{◌≡◌};
ghost use Rattle.http_requests.specs.HeadFaults.{head_fault_number, head_fault_status};
ghost use Rattle.http_requests.specs.HeadFaults.{head_fault_text};

/// Why a request is refused before its body is read, or its reply isn't sent (`Busy`). Each fault
/// closes the connection.
#[derive(Clone, Copy, Debug, PartialEq, Eq)]
pub enum HeadFault {
    /// The octets are no head, or a head with more than 64 fields.
    BadHead,
    /// The first 16,384 octets are still an incomplete head.
    HeadTooLarge,
    /// A request of version 1.1 doesn't have exactly one Host field.
    BadHost,
    /// There is a Transfer-Encoding field.
    TransferEncoding,
    /// There are several Content-Length fields, or the value isn't 1 to 15 digits.
    BadLength,
    /// The body's length is above 8,388,608.
    BodyTooLarge,
    /// The Host field has a name that isn't this server's.
    ForeignHost,
    /// A page of another site sent the request.
    ForeignSite,
    /// A field has a precondition, which this server doesn't evaluate.
    Precondition,
    /// All connections together hold as much as they may.
    Busy,
}

impl HeadFault {
    /// The number of the fault: 21 to 26, and 31 to 34, in the order of the variants.
    pub fn number(self) -> u8
        ensures { result ≡ head_fault_number self }
    {
        match self {
            HeadFault::BadHead => 21,
            HeadFault::HeadTooLarge => 22,
            HeadFault::BadHost => 23,
            HeadFault::TransferEncoding => 24,
            HeadFault::BadLength => 25,
            HeadFault::BodyTooLarge => 26,
            HeadFault::ForeignHost => 31,
            HeadFault::ForeignSite => 32,
            HeadFault::Precondition => 33,
            HeadFault::Busy => 34,
        }
    }

    /// The status of the reply (RFC 9110, section 15; RFC 6585, section 5).
    pub fn status(self) -> u16
        ensures { result ≡ head_fault_status self }
    {
        match self {
            HeadFault::BadHead => 400,
            HeadFault::HeadTooLarge => 431,
            HeadFault::BadHost => 400,
            HeadFault::TransferEncoding => 501,
            HeadFault::BadLength => 400,
            HeadFault::BodyTooLarge => 413,
            HeadFault::ForeignHost => 421,
            HeadFault::ForeignSite => 403,
            HeadFault::Precondition => 501,
            HeadFault::Busy => 503,
        }
    }

    /// The text of the fault in replies, as `bad-head`.
    pub fn text(self) -> &'static str
        ensures { result.now ≡ head_fault_text self }
    {
        match self {
            HeadFault::BadHead => "bad-head",
            HeadFault::HeadTooLarge => "head-too-large",
            HeadFault::BadHost => "bad-host",
            HeadFault::TransferEncoding => "transfer-encoding",
            HeadFault::BadLength => "bad-length",
            HeadFault::BodyTooLarge => "body-too-large",
            HeadFault::ForeignHost => "foreign-host",
            HeadFault::ForeignSite => "foreign-site",
            HeadFault::Precondition => "precondition",
            HeadFault::Busy => "busy",
        }
    }
}
