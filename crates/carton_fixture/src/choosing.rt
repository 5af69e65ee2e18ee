ghost use Rattle.std.specs.Prelude.{◌≡◌, ◌≤◌, ◌<◌, ◌+◌, ◌∷◌, ◌++◌, [], if◌then◌else◌, length, All, vec_len};
ghost use Rattle.std.specs.Prelude.{vec_capacity};
ghost use Rattle.carton_fixture.specs.Answers.{clears as clears_in, clear_ones};
ghost use Rattle.carton_fixture.specs.Steps.{none_of, AreNamed, AreFirst};

use carton_base::Cuboid;
use carton_fixture_text::FixtureBody;
use carton_stroke::BodyNote;

fn clears(note: &BodyNote) -> bool
    ensures { result ≡ clears_in note.now }
{
    matches!(note, BodyNote::Clears)
}

/// Chooses the candidates that are noted to clear the plan.
pub fn choose_clear(notes: &[BodyNote], chosen: &mut [bool])
    requires { length chosen.old ≡ length notes.now }
    ensures { chosen.new ≡ clear_ones notes.now }
{
    for k in 0..notes.len() {
        chosen[k] = clears(&notes[k]);
    }
}

fn choose_none(chosen: &mut [bool])
    ensures { chosen.new ≡ none_of (length chosen.old) }
{
    chosen.fill(false);
}

fn choose_also(bodies: &[FixtureBody], chosen: &mut [bool])
    requires none { chosen.old ≡ none_of (length chosen.old) }
    requires within { All (λ b. b.id < length chosen.old) bodies.now }
    ensures { AreNamed chosen.new bodies.now }
{
    for body in bodies {
        chosen[usize::from(body.id)] = true;
    }
}

/// Chooses the candidates whose numbers the bodies have.
pub fn choose_named(bodies: &[FixtureBody], chosen: &mut [bool])
    requires { All (λ b. b.id < length chosen.old) bodies.now }
    ensures { AreNamed chosen.new bodies.now }
{
    choose_none(chosen);
    choose_also(bodies, chosen);
}

// The bodies with one more if it is chosen, for which there is room.
fn keep(bodies: &mut Vec<FixtureBody>, is_chosen: bool, body: FixtureBody)
    requires { vec_len bodies.old < vec_capacity bodies.old }
    ensures items { bodies.new.items
        ≡ (if is_chosen then bodies.old.items ++ body ∷ [] else bodies.old.items) }
    ensures len { vec_len bodies.new ≤ vec_len bodies.old + 1 }
    ensures room { vec_capacity bodies.old ≤ vec_capacity bodies.new }
{
    if is_chosen {
        let _ = bodies.push(body);
    }
}

/// The chosen candidates as bodies of a fixture, in a list that has room for all candidates.
pub fn chosen_bodies(
    candidates: &[Cuboid],
    chosen: &[bool],
    mut bodies: Vec<FixtureBody>,
) -> Vec<FixtureBody>
    requires one_each { length chosen.now ≡ length candidates.now }
    requires few { length candidates.now ≤ 256 }
    requires empty { vec_len bodies ≡ 0 }
    requires room { length candidates.now ≤ vec_capacity bodies }
    ensures { AreFirst candidates.now chosen.now (length candidates.now) result.items }
{
    for k in 0..candidates.len() {
        let body = FixtureBody {
            id: k as u16,
            shape: candidates[k],
        };
        keep(&mut bodies, chosen[k], body);
    }
    bodies
}
