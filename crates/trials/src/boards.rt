// Vulnerabilities of boards, and what does not exist.
use contract::Vulnerability;

pub(crate) const VULNERABLE: [(u8, Vulnerability); 26] = [
    (1, Vulnerability::Neither),
    (2, Vulnerability::NorthSouth),
    (3, Vulnerability::EastWest),
    (4, Vulnerability::Both),
    (5, Vulnerability::NorthSouth),
    (6, Vulnerability::EastWest),
    (7, Vulnerability::Both),
    (8, Vulnerability::Neither),
    (9, Vulnerability::EastWest),
    (10, Vulnerability::Both),
    (11, Vulnerability::Neither),
    (12, Vulnerability::NorthSouth),
    (13, Vulnerability::Both),
    (14, Vulnerability::Neither),
    (15, Vulnerability::NorthSouth),
    (16, Vulnerability::EastWest),
    (17, Vulnerability::Neither),
    (18, Vulnerability::NorthSouth),
    (19, Vulnerability::EastWest),
    (20, Vulnerability::Both),
    (24, Vulnerability::Neither),
    (32, Vulnerability::EastWest),
    (33, Vulnerability::Neither),
    (64, Vulnerability::EastWest),
    (255, Vulnerability::NorthSouth),
    (0, Vulnerability::EastWest),
];

/// Levels and tricks of contracts that do not exist.
pub(crate) const NO_CONTRACTS: [(u8, u8); 6] = [
    (0, 7),
    (8, 13),
    (255, 13),
    (1, 14),
    (7, 255),
    (0, 14),
];

pub(crate) const NO_SCORES: [i16; 4] = [7601, -7601, 32767, -32768];
