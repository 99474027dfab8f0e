// "The screen reads a pool through a window on the lent bytes that remembers its place" (01, "The pool").
#![tactic(auto)]

ghost use Rattle.std.specs.Prelude.{◌≡◌, leb, length, drop};
ghost use Rattle.objects.specs.Objects.{next_at, found_at};

use objects::Found;

#[derive(Clone, Copy)]
pub struct Window<'a> {
    pub pool: &'a [u8],
    pub place: usize,
}

impl<'a> Window<'a> {
    // A window at a place of a pool; 0 is that of the first object.
    pub fn open(pool: &'a [u8], place: usize) -> Window<'a>
        ensures { (result.pool ≡ pool.entry) × (result.place ≡ place) }
    {
        Window { pool, place }
    }

    // The object at the window's place, with the place after it.
    pub fn object(self) -> Found
        ensures { result ≡ found_at self.entry.pool.now self.entry.place }
    {
        objects::object_at(self.pool, self.place)
    }

    // The window at the next object.
    pub fn moved(self) -> Window<'a>
        ensures { (result.pool ≡ self.entry.pool) × (result.place ≡ next_at self.entry.pool.now self.entry.place) }
    {
        Window::open(self.pool, self.object().next)
    }

    // The bytes from the window's place on.
    pub fn rest(self) -> &'a [u8]
        ensures { result.now ≡ drop self.entry.place self.entry.pool.now }
    {
        self.pool.get(self.place..).unwrap_or(&[])
    }

    pub fn at_end(self) -> bool
        ensures { result ≡ leb (length self.entry.pool.now) self.entry.place }
    {
        self.pool.len() <= self.place
    }
}
