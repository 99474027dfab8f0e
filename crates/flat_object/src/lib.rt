// An object of a pool as a struct of numbers, for C.
#![tactic(auto)]

ghost use Rattle.std.specs.Prelude.{◌≡◌, Ok, Err};
ghost use Rattle.objects.specs.Objects.{found_at, write_answer, write_out};
ghost use Rattle.flat_object.specs.Flat.{flat_kind, flat_object, base_from, function_from, state_from, kind_from, object_from};
ghost use Rattle.flat_object.specs.ReadBack.{ReadBack};

use objects::{Found, Object, Written};
use pool::{BaseHead, FunctionHead, Head, StateHead};
use window::Window;

// The kinds of an object; NONE where none can be read at the place.
const BASE: u8 = 0;

const FUNCTION: u8 = 1;

const STATE: u8 = 2;

const NONE: u8 = 255;

// An object as C has it: numbers only. As it is read, those that a kind does not have are 0. standard is the version of the standard; n and m are the labels'
// lengths, count that of the list.
#[repr(C)]
#[derive(Clone, Copy)]
pub struct FlatObject {
    pub kind: u8,
    pub place: usize,
    pub next: usize,
    pub number: u16,
    pub standard: u8,
    pub master: u64,
    pub mask: u64,
    pub name: u16,
    pub picture: u16,
    pub function: u8,
    pub trigger: u8,
    pub attribute: u8,
    pub minimum: u32,
    pub maximum: u32,
    pub offset: u32,
    pub scale: u32,
    pub decimals: u8,
    pub unit: u16,
    pub state: u8,
    pub n: u8,
    pub m: u8,
    pub count: u8,
    pub version: [u8; 63],
    pub configuration: [u8; 63],
    pub list: [u16; 255],
}

impl FlatObject {
    // No object.
    fn none(place: usize, found: &Found) -> FlatObject
        ensures { result ≡ flat_kind (Err place) place found.now }
    {
        let version = found.object.version;
        let configuration = found.object.configuration;
        let list = found.object.list;
        FlatObject {
            kind: NONE,
            place,
            next: found.next,
            number: 0,
            standard: 0,
            master: 0,
            mask: 0,
            name: 0,
            picture: 0,
            function: 0,
            trigger: 0,
            attribute: 0,
            minimum: 0,
            maximum: 0,
            offset: 0,
            scale: 0,
            decimals: 0,
            unit: 0,
            state: 0,
            n: 0,
            m: 0,
            count: 0,
            version,
            configuration,
            list,
        }
    }

    // Tables A.1 to A.3.
    fn of(head: Head, place: usize, found: &Found) -> FlatObject
        ensures { result ≡ flat_kind (Ok head) place found.now }
    {
        let mut flat = FlatObject::none(place, found);
        match head {
            Head::Base(h) => {
                flat.kind = BASE;
                flat.number = h.number;
                flat.standard = h.version;
                flat.master = h.master;
                flat.mask = h.mask;
                flat.name = h.name;
                flat.picture = h.picture;
                flat.n = h.n;
                flat.m = h.m;
                flat.count = h.o;
            }
            Head::Function(h) => {
                flat.kind = FUNCTION;
                flat.number = h.number;
                flat.function = h.function;
                flat.trigger = h.trigger;
                flat.attribute = h.attribute;
                flat.minimum = h.minimum;
                flat.maximum = h.maximum;
                flat.offset = h.offset;
                flat.scale = h.scale;
                flat.decimals = h.decimals;
                flat.unit = h.unit;
                flat.name = h.name;
                flat.picture = h.picture;
                flat.count = h.s;
            }
            Head::State(h) => {
                flat.kind = STATE;
                flat.number = h.number;
                flat.state = h.state;
                flat.name = h.name;
                flat.picture = h.picture;
            }
        }
        flat
    }

    // The head of a number's kind; a number of no kind has none.
    #[tactic(auto, unfolding(octets::specs::Pick::pick))]
    fn head(&self) -> Result<Head, usize>
        ensures { result ≡ kind_from self.now }
    {
        match self.kind {
            BASE => Ok(Head::Base(BaseHead::from(self))),
            FUNCTION => Ok(Head::Function(FunctionHead::from(self))),
            STATE => Ok(Head::State(StateHead::from(self))),
            _ => Err(0),
        }
    }
}

// The object at a place of a pool, read through a window on it.
pub fn object_at(pool: &[u8], place: usize) -> FlatObject
    ensures { result ≡ flat_object place (found_at pool.now place) }
{
    let found = Window::open(pool, place).object();
    match found.object.kind {
        Ok(head) => FlatObject::of(head, place, &found),
        Err(_) => FlatObject::none(place, &found),
    }
}

// ---- and back

// Table A.1.
impl From<&FlatObject> for BaseHead {
    ghost from_gives = { λ flat head. head ≡ base_from flat.now };

    fn from(flat: &FlatObject) -> BaseHead {
        BaseHead {
            number: flat.number,
            version: flat.standard,
            master: flat.master,
            mask: flat.mask,
            name: flat.name,
            picture: flat.picture,
            n: flat.n,
            m: flat.m,
            o: flat.count,
        }
    }
}

// Table A.2.
impl From<&FlatObject> for FunctionHead {
    ghost from_gives = { λ flat head. head ≡ function_from flat.now };

    fn from(flat: &FlatObject) -> FunctionHead {
        FunctionHead {
            number: flat.number,
            function: flat.function,
            trigger: flat.trigger,
            attribute: flat.attribute,
            minimum: flat.minimum,
            maximum: flat.maximum,
            offset: flat.offset,
            scale: flat.scale,
            decimals: flat.decimals,
            unit: flat.unit,
            name: flat.name,
            picture: flat.picture,
            s: flat.count,
        }
    }
}

// Table A.3.
impl From<&FlatObject> for StateHead {
    ghost from_gives = { λ flat head. head ≡ state_from flat.now };

    fn from(flat: &FlatObject) -> StateHead {
        StateHead {
            number: flat.number,
            state: flat.state,
            name: flat.name,
            picture: flat.picture,
        }
    }
}

impl From<&FlatObject> for Object {
    ghost from_gives = { λ flat object. object ≡ object_from flat.now };

    fn from(flat: &FlatObject) -> Object {
        let version = flat.version;
        let configuration = flat.configuration;
        let list = flat.list;
        Object {
            kind: flat.head(),
            version,
            configuration,
            list,
        }
    }
}

// The object's bytes at a place of the lent buffer: 1 where they have no room, 4 where the object is not legal, and then nothing changes.
pub fn write(flat: &FlatObject, place: usize, out: &mut [u8]) -> Written
    ensures value { result ≡ write_answer (object_from flat.now) out.old place }
    ensures out_after { out.new ≡ write_out (object_from flat.now) out.old place }
{
    objects::write_object(&Object::from(flat), out, place)
}

// What was written is read back: nothing is done, the contract says so.
pub fn read_back()
    ensures { ReadBack }
{}
