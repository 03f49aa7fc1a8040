// All ids looked up, each compared with a plain search through the places.
use settings::COUNT;
use std::io;

// How many ids there are.
const IDS: usize = 65536;

// Prints the line for all ids.
pub fn all(rt: &impl Print) -> io::Result<()> {
    let found = (0..=u16::MAX)
        .filter(|id| settings::find(*id).is_some())
        .count();
    let agree = (0..=u16::MAX).filter(|id| agrees(*id)).count();
    let differ = IDS.abs_diff(agree);
    println!(rt;
        "ids looked up, of them settings {found}: that agree {agree}, that differ {differ}"
    )
}

// Returns whether a look-up finds the setting at the first place with an id, and gives it that place.
fn agrees(id: u16) -> bool {
    let found = settings::find(id);
    match search(id) {
        Some(place) => {
            found == settings::at(place) && found.is_some_and(|setting| setting.index == place)
        }
        None => found.is_none(),
    }
}

// Returns the first place with an id.
fn search(id: u16) -> Option<usize> {
    (0..COUNT).find(|place| settings::at(*place).is_some_and(|setting| setting.id == id))
}
