//! What a host found out about a stop.

/// Why a file or a port can't be used, as far as a host can tell when it looks afterwards.
#[derive(Clone, Copy)]
pub enum FoundCause {
    /// Nothing was found, or nothing was looked for.
    Nothing,
    /// There is no such file.
    Missing,
    /// There is no folder for the file.
    NoFolder,
    /// It is a folder.
    IsFolder,
    /// It is neither a file nor a folder, or it is a file with several names.
    NotPlain,
    /// The user may not read it, or may not write it where that is needed.
    Denied,
    /// The user may not make files beside it.
    FolderDenied,
    /// Its disk is read-only.
    ReadOnly,
    /// Its disk is full.
    DiskFull,
    /// Another program has it open.
    Taken,
    /// A rollback journal of SQLite is beside it.
    HasJournal,
    /// A page isn't as it was written, or isn't one of a sound database.
    Damaged,
    /// It has more octets than a file of rows may have.
    TooLong,
    /// It can't be read for another reason.
    Unreadable,
    /// It is a vCard, and rows were expected.
    IsCard,
    /// Another program listens at the port.
    PortTaken,
    /// The user may not listen at the port.
    PortDenied,
    /// Another program listens at the socket.
    SocketTaken,
    /// The system has no sockets of so long a path.
    LongPath,
    /// Something else than a socket is where it should be made.
    NotSocket,
}
