//! The kind bytes of frames.

pub const PUT: u8 = 0x01;

pub const GET: u8 = 0x02;

pub const DELETE: u8 = 0x03;

pub const FLUSH: u8 = 0x05;

pub const AFTER: u8 = 0x06;

pub const STORED: u8 = 0x81;

pub const FOUND: u8 = 0x82;

pub const MISSING: u8 = 0x83;

pub const REMOVED: u8 = 0x84;

pub const ABSENT: u8 = 0x85;

pub const NOTED: u8 = 0x87;

pub const BAD_KEY: u8 = 0xE1;

pub const TOO_LARGE: u8 = 0xE2;

pub const FULL: u8 = 0xE3;

pub const NO_MEMORY: u8 = 0xE4;

pub const DISK_FAULT: u8 = 0xE5;

pub const UNSURE: u8 = 0xE6;

pub const CLOSED: u8 = 0xE7;

pub const STAMPS_SPENT: u8 = 0xE8;

pub const MALFORMED: u8 = 0xE9;

pub const AHEAD: u8 = 0xEA;
