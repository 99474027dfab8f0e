// A client: what the master keeps in its slot, and its record in a sequence.
#![tactic(auto)]

ghost use Rattle.std.specs.Prelude.{◌≡◌};
ghost use Rattle.arrays.specs.Arrays.{some};
ghost use Rattle.client.specs.Clients.{is_taken, is_enabled, is_awake, is_named, is_other, passes, blank_slot, attached};
ghost use Rattle.client.specs.Records.{blank_record, record_of};
ghost use Rattle.client.specs.Reports.{report_number, report_of};

use octets::label::{Label, blank};
use octets::numbers::Refusal;
use profile::{Profile, blank_profile};

// How many slots there are.
pub const SLOTS: usize = 8;

// The state that a client reports; the numbering is the library's own. In a slot a number that is not here counts as playback.
#[derive(Clone, Copy, Debug, PartialEq, Eq)]
pub enum Report {
    Disabled = 0,
    Ready = 1,
    Record = 2,
    Playback = 4,
    Abort = 5,
}

impl Report {
    // As a slot holds it.
    pub fn number(self) -> u8
        ensures { result ≡ report_number self }
    {
        self as u8
    }
}

impl TryFrom<u32> for Report {
    type Error = Refusal;

    ghost try_from_gives = { λ number r. r ≡ report_of number };

    fn try_from(number: u32) -> Result<Report, Refusal> {
        match number {
            0 => Ok(Report::Disabled),
            1 => Ok(Report::Ready),
            2 => Ok(Report::Record),
            4 => Ok(Report::Playback),
            5 => Ok(Report::Abort),
            _ => Err(Refusal::WrongValue),
        }
    }
}

// taken and wanted are 0 for no; any other number is yes. An empty slot is blank.
#[repr(C)]
#[derive(Clone, Copy)]
pub struct Client {
    pub taken: u8,
    pub wanted: u8,
    pub report: u8,
    pub name: u64,
    pub profile: Profile,
}

// What a sequence keeps of a client. used is 0 for no; any other number is yes.
#[repr(C)]
#[derive(Clone, Copy)]
pub struct ClientRecord {
    pub used: u8,
    pub name: u64,
    pub master: u64,
    pub version: Label,
    pub configuration: Label,
}

// What a slot may be asked.
#[derive(Clone, Copy)]
pub enum Test {
    // A client is attached that last reported something else than disabled.
    Awake,
    // A client is enabled.
    Enabled,
    // A client of this NAME is attached.
    Named(u64),
    // An enabled client last reported something else than this number.
    Other(u8),
}

#[tactic(auto, unfolding(crate::specs::Clients::blank_slot))]
pub fn blank_slot() -> Client
    ensures { result ≡ blank_slot }
{
    let profile = blank_profile();
    Client {
        taken: 0,
        wanted: 0,
        report: Report::Disabled as u8,
        name: 0,
        profile,
    }
}

// The slot of a client that has just been attached.
pub fn attached(name: u64, profile: Profile) -> Client
    ensures { result ≡ attached name profile }
{
    Client {
        taken: 1,
        wanted: 0,
        report: Report::Disabled as u8,
        name,
        profile,
    }
}

#[tactic(auto, unfolding(crate::specs::Records::blank_record))]
pub fn blank_record() -> ClientRecord
    ensures { result ≡ blank_record }
{
    let version = blank();
    let configuration = blank();
    ClientRecord {
        used: 0,
        name: 0,
        master: 0,
        version,
        configuration,
    }
}

impl Client {
    // A client is attached.
    pub fn is_taken(&self) -> bool
        ensures { result ≡ is_taken self.now }
    {
        self.taken != 0
    }

    pub fn is_enabled(&self) -> bool
        ensures { result ≡ is_enabled self.now }
    {
        self.is_awake() & (self.wanted != 0)
    }

    // A client is attached that last reported something else than disabled.
    pub fn is_awake(&self) -> bool
        ensures { result ≡ is_awake self.now }
    {
        (self.taken != 0) & (self.report != Report::Disabled as u8)
    }

    // A client of this NAME is attached.
    pub fn is_named(&self, name: u64) -> bool
        ensures { result ≡ is_named name self.now }
    {
        (self.taken != 0) & (self.name == name)
    }

    // An enabled client last reported something else than this.
    pub fn is_other(&self, report: Report) -> bool
        ensures { result ≡ is_other (report_number report) self.now }
    {
        self.reports_other(report.number())
    }

    // The same of any number.
    fn reports_other(&self, report: u8) -> bool
        ensures { result ≡ is_other report self.now }
    {
        self.is_enabled() & (self.report != report)
    }

    fn passes(&self, test: Test) -> bool
        ensures { result ≡ passes test self.now }
    {
        match test {
            Test::Awake => self.is_awake(),
            Test::Enabled => self.is_enabled(),
            Test::Named(name) => self.is_named(name),
            Test::Other(report) => self.reports_other(report),
        }
    }

    // The client's record in a sequence.
    #[tactic(auto, unfolding(crate::specs::Records::record_of))]
    pub fn kept_record(&self) -> ClientRecord
        ensures { result ≡ record_of self.now }
    {
        ClientRecord {
            used: 1,
            name: self.name,
            master: self.profile.master,
            version: self.profile.version,
            configuration: self.profile.configuration,
        }
    }
}

// Some slot passes the test.
pub fn some_slot(slots: &[Client; SLOTS], test: Test) -> bool
    ensures { result ≡ some (passes test) slots.now }
{
    slots.iter().any(|client| client.passes(test))
}
