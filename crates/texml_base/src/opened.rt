// Open files by their ids, the newest first.
ghost use Rattle.std.specs.Prelude.{◌≡◌, ◌<◌, length, false, IsTrue};
ghost use Rattle.texml_base.specs.Outside.{in_use};
ghost use Rattle.texml_base.specs.Opened.{ids_of};
ghost use Rattle.texml_base.specs.Place.{place};

#[derive(Drop)]
pub struct Opened<T> {
    pub id: u32,
    pub file: T,
}

// An id that is not in use. There is one, since fewer than a thousand are.
pub fn free_id<T>(opened: &[Opened<T>]) -> u32
    requires { length (ids_of opened.now) < 1000 }
    ensures { in_use (ids_of opened.now) result ≡ false }
{
    for id in 0..1000 {
        if !is_in_use(opened, id) {
            return id;
        }
    }
    unreachable!()
}

fn is_in_use<T>(opened: &[Opened<T>], id: u32) -> bool
    ensures { result ≡ in_use (ids_of opened.now) id }
{
    for o in opened {
        if o.id == id {
            return true;
        }
    }
    false
}

// Where an id in use stands.
pub fn place_of<T>(opened: &[Opened<T>], id: u32) -> usize
    requires { IsTrue (in_use (ids_of opened.now) id) }
    ensures within { result < length opened.now }
    ensures first { result ≡ place id opened.now }
{
    for (i, o) in opened.iter().enumerate() {
        if o.id == id {
            return i;
        }
    }
    unreachable!()
}
