//! Finding a semaphore in the list.
ghost use Rattle.std.specs.Prelude.{◌≡◌, ◌↔◌, IsTrue};
ghost use Rattle.ci_shared.specs.Semaphores.{semaphore_named};
ghost use Rattle.ci_sems.specs.Found.{IsFoundAt};

use ci_base::Text;
use ci_shared::Semaphore;

/// Where the semaphore of this number stands.
pub(crate) fn by_number(kept: &[Semaphore], number: i32) -> Option<usize>
    ensures { IsFoundAt number kept.now result }
{
    for i in 0..kept.len() {
        if has_number(&kept[i], number) {
            return Some(i);
        }
    }
    None
}

/// The number of the semaphore of this name.
pub(crate) fn by_name(kept: &[Semaphore], text: &Text) -> Option<i32>
    ensures { result ≡ semaphore_named text.now kept.now }
{
    for i in 0..kept.len() {
        let semaphore = &kept[i];
        if semaphore.name == *text {
            return Some(number_of(semaphore));
        }
    }
    None
}

// The number, as contracts see it.
fn number_of(semaphore: &Semaphore) -> i32
    ensures { result ≡ semaphore.now.number }
{
    semaphore.number
}

// Whether it is the semaphore of this number.
fn has_number(semaphore: &Semaphore, number: i32) -> bool
    ensures { IsTrue result ↔ (semaphore.now.number ≡ number) }
{
    semaphore.number == number
}
