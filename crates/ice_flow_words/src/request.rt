//! What words ask for.

/// The words of `build CHIP PACKAGE PCF BLIF ASC` and of its options.
#[derive(Clone, Copy)]
pub struct BuildRequest<'a> {
    /// The name of the file of the chip database.
    pub chip: &'a str,
    /// The name of the package.
    pub package_name: &'a str,
    /// The name of the file of the pin constraints.
    pub pcf: &'a str,
    /// The name of the netlist's file.
    pub blif: &'a str,
    /// The name of the file of bits.
    pub asc: &'a str,
    /// The name of the file of the pin report, where one is asked for.
    pub pins: Option<&'a str>,
    /// The name of the file of the route report, where one is asked for.
    pub report: Option<&'a str>,
    /// The seed of the placement; 1 where none is given.
    pub seed: u64,
    /// The most rounds of routing, from 1 to 64; 64 where none is given.
    pub rounds: u32,
    /// The number of workers, from 1 to 8; 2 where none is given.
    pub workers: u32,
    /// Whether workers first take whole nets; false where it is not asked for.
    pub opening: bool,
}

/// The words of `back CHIP PACKAGE ASC BLIF`.
#[derive(Clone, Copy)]
pub struct BackRequest<'a> {
    /// The name of the file of the chip database.
    pub chip: &'a str,
    /// The name of the package.
    pub package_name: &'a str,
    /// The name of the file of bits.
    pub asc: &'a str,
    /// The name of the netlist's file.
    pub blif: &'a str,
}

/// The words of `play-net BLIF LEVELS`.
#[derive(Clone, Copy)]
pub struct PlayNetRequest<'a> {
    /// The name of the netlist's file.
    pub blif: &'a str,
    /// The name of the file of levels.
    pub levels: &'a str,
}

/// The words of `play-bits CHIP PACKAGE ASC LEVELS`.
#[derive(Clone, Copy)]
pub struct PlayBitsRequest<'a> {
    /// The name of the file of the chip database.
    pub chip: &'a str,
    /// The name of the package.
    pub package_name: &'a str,
    /// The name of the file of bits.
    pub asc: &'a str,
    /// The name of the file of levels.
    pub levels: &'a str,
}

/// The words of `time CHIP PACKAGE ASC DELAYS`.
#[derive(Clone, Copy)]
pub struct TimeRequest<'a> {
    /// The name of the file of the chip database.
    pub chip: &'a str,
    /// The name of the package.
    pub package_name: &'a str,
    /// The name of the file of bits.
    pub asc: &'a str,
    /// The name of the file of delays.
    pub delays: &'a str,
}

/// The words of `sample NUMBER` and of its option.
#[derive(Clone, Copy)]
pub struct SampleRequest {
    /// The number of the sample.
    pub number: u64,
    /// The number of workers, from 1 to 8; 2 where none is given. The answer does not depend on it.
    pub workers: u32,
}

/// What words ask for.
#[derive(Clone, Copy)]
pub enum Request<'a> {
    /// `build CHIP PACKAGE PCF BLIF ASC`, with `--pins FILE`, `--report FILE`, `--seed N`, `--rounds N`, `--workers N` and `--opening N`.
    Build(BuildRequest<'a>),
    /// `back CHIP PACKAGE ASC BLIF`.
    Back(BackRequest<'a>),
    /// `play-net BLIF LEVELS`.
    PlayNet(PlayNetRequest<'a>),
    /// `play-bits CHIP PACKAGE ASC LEVELS`.
    PlayBits(PlayBitsRequest<'a>),
    /// `time CHIP PACKAGE ASC DELAYS`.
    Time(TimeRequest<'a>),
    /// `sample NUMBER`, with `--workers N`.
    Sample(SampleRequest),
}
