// The kinds of message: C.2 to E.8 in the order of the clauses. They stay numbers: a C host may hand any in a struct that include/scm.h declares.
pub const NOTHING: u8 = 0;

pub const CAPABILITY_REQUEST: u8 = 1;

pub const CAPABILITY_RESPONSE: u8 = 2;

pub const MEMORY_REQUEST: u8 = 3;

pub const MEMORY_RESPONSE: u8 = 4;

pub const VERSION_REQUEST: u8 = 5;

pub const VERSION_RESPONSE: u8 = 6;

pub const CONFIGURATION_REQUEST: u8 = 7;

pub const CONFIGURATION_RESPONSE: u8 = 8;

pub const TRANSFER: u8 = 9;

pub const TRANSFER_RESPONSE: u8 = 10;

pub const ACTIVATION_COMMAND: u8 = 11;

pub const POOL_ACKNOWLEDGEMENT: u8 = 12;

pub const DELETE_COMMAND: u8 = 13;

pub const DELETE_RESPONSE: u8 = 14;

pub const STORE_COMMAND: u8 = 15;

pub const STORE_RESPONSE: u8 = 16;

pub const LOAD_COMMAND: u8 = 17;

pub const LOAD_RESPONSE: u8 = 18;

pub const STATE_COMMAND: u8 = 19;

pub const CLIENT_ABORT: u8 = 20;

pub const INDICATION: u8 = 21;

pub const INDICATION_RESPONSE: u8 = 22;

pub const COMMAND: u8 = 23;

pub const ANSWER: u8 = 24;

pub const ANSWER_ACKNOWLEDGEMENT: u8 = 25;
