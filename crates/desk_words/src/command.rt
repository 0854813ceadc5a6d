use desk_law::KindOnDay;
use desk_text::{Bytes, Day};

/// The most bytes in the name of a store.
pub const STORE_NAME_LIMIT: usize = 200;

/// The largest sample.
pub const SAMPLE_LIMIT: u32 = 2000;

/// The largest number of a port.
pub const PORT_LIMIT: u32 = 65_535;

/// The most connections that are served at once.
pub const SEAT_LIMIT: u32 = 8;

/// So many connections are served at once unless the words say otherwise.
pub const USUAL_SEATS: u32 = 4;

/// The greatest number of connections after which serving ends.
pub const CONNECTION_LIMIT: u32 = 1_000_000;

/// What the program is asked to do.
#[derive(Debug, Drop)]
pub enum Command {
    /// Judge a declaration for a kind of equipment and a day, 2014-07-22 or later.
    Check(KindOnDay),
    /// Serve a stream of requests.
    Session(Session),
    /// Serve connections at a port of this machine.
    Serve(Serve),
    /// Write what a store keeps.
    Export(Export),
    /// Fill an empty store.
    Import(Import),
    /// Judge a store's desk on a day.
    Audit(Audit),
    /// Make a sample desk and summarise it.
    Sample(Sample),
}

/// The command `session`: serve one stream of requests on the console.
#[derive(Debug, Drop)]
pub struct Session {
    /// The name of the store that keeps the desk, 1 to 200 bytes. Without one the desk ends with the session.
    pub store: Option<Bytes>,
}

/// The command `serve`: serve connections at a port of this machine.
#[derive(Debug, Drop)]
pub struct Serve {
    /// The port, 1 to 65,535.
    pub port: u16,
    /// How many connections are served at once, 1 to 8.
    pub seats: u32,
    /// The number of connections after which serving ends, 1 to 1,000,000. Without it no number ends it.
    pub connections: Option<u32>,
    /// The name of the store that keeps the desk, 1 to 200 bytes. Without one the desk ends with the serving.
    pub store: Option<Bytes>,
}

/// The command `export`: write what a store keeps to the console.
#[derive(Debug, Drop)]
pub struct Export {
    /// The name of the store, 1 to 200 bytes.
    pub store: Bytes,
}

/// The command `import`: fill an empty store with what an export wrote.
#[derive(Debug, Drop)]
pub struct Import {
    /// The name of the store, 1 to 200 bytes.
    pub store: Bytes,
}

/// The command `audit`: judge the desk of a store on a day.
#[derive(Debug, Drop)]
pub struct Audit {
    /// The day that is asked about, 2014-07-22 or later.
    pub day: Day,
    /// The name of the store, 1 to 200 bytes.
    pub store: Bytes,
}

/// The command `sample`: make a sample desk and write its summary.
#[derive(Clone, Copy, Debug)]
pub struct Sample {
    /// How many declarations, and as many articles, the sample has: 1 to 2,000.
    pub size: u32,
}
