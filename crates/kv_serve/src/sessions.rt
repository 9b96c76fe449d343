ghost use Rattle.std.specs.Prelude.{◌≡◌, ◌<◌, ◌≤◌, ◌+◌, [], ◌++◌, length, map, vec_capacity};
ghost use Rattle.std.specs.Prelude.{IsTrue, OnOk, IfErr, filter_map, option_to_list};
ghost use Rattle.kv_serve.specs.Taken.{AreLent, CountsTakes, GivesSessions, TookSessions};

use crate::ended::Endings;
use kv_base::ReservedList;
use kv_session::{Ending, SessionParts};
use kv_site::{Site, TakeFault};
use kv_words::Ends;

/// Takes the ends of the sessions with these names, in order. Where the site refuses those of one it
/// answers whose, and those before it are in the list.
pub fn take_sessions<S: Site>(
    site: &mut S,
    names: &[Ends<'_>],
    ends: &mut Vec<(S::In, S::Out)>,
) -> Result<(), (u32, TakeFault)>
    requires few { length names.now ≤ 8 }
    requires empty { ends.old.items ≡ [] }
    requires room { length names.now ≤ vec_capacity ends.old }
    ensures took { IsTrue S.tells → TookSessions (S.holds site.old) (S.holds site.new)
        ends.new.items }
    ensures ok { OnOk result (length ends.new.items ≡ length names.now) }
    ensures within { length ends.new.items ≤ length names.now }
    ensures err { IfErr result (λ refused. refused.0 < length names.now) }
    ensures counted { CountsTakes (S.faults site.old) (S.faults site.new) result }
{
    for session in 0..names.len() {
        let name = names[session];
        match site.take_session(session as u32, name.input, name.output) {
            Ok(both) => ends.push(both).unwrap(),
            Err(fault) => return Err((session as u32, fault)),
        }
    }
    Ok(())
}

/// Gives the ends of sessions back, the last ones first.
pub fn give_sessions<S: Site>(site: &mut S, mut ends: Vec<(S::In, S::Out)>)
    requires { length ends.items ≤ 8 }
    ensures given { IsTrue S.tells → AreLent (S.holds site.old) (length ends.items)
        → GivesSessions (S.holds site.old) (S.holds site.new) ends.items }
    ensures still { S.faults site.new ≡ S.faults site.old }
{
    while let Some((source, sink)) = ends.pop() {
        site.give_session(ends.len() as u32, source, sink);
    }
}

/// Gives the ends of sessions that have stopped back, the last ones first, and puts how they ended, in
/// order, into a list that has room for them.
pub fn give_stopped<S: Site>(
    site: &mut S,
    mut sessions: ReservedList<SessionParts<S::In, S::Out>>,
    mut endings: Endings,
) -> Endings
    requires few { length sessions.items ≤ 8 }
    requires empty { endings.items ≡ [] }
    requires room { length sessions.items ≤ endings.spare }
    ensures given { IsTrue S.tells → AreLent (S.holds site.old) (length sessions.items)
        → GivesSessions (S.holds site.old) (S.holds site.new)
        (map (λ parts. (parts.source, parts.sink)) sessions.items) }
    ensures still { S.faults site.new ≡ S.faults site.old }
    ensures endings { result.items ≡ filter_map (λ parts. parts.ending) sessions.items }
{
    while let Some(parts) = sessions.take_last() {
        let SessionParts {
            source,
            sink,
            ending,
        } = parts;
        site.give_session(sessions.as_slice().len() as u32, source, sink);
        append_some(&mut endings, ending);
    }
    endings.as_mut_slice().reverse();
    endings
}

/// Appends the ending, if there is one.
fn append_some(endings: &mut Endings, ending: Option<Ending>)
    requires { 0 < endings.old.spare }
    ensures items { endings.new.items ≡ endings.old.items ++ option_to_list ending }
    ensures spare { endings.old.spare ≤ endings.new.spare + 1 }
{
    if let Some(ending) = ending {
        endings.append(ending).unwrap();
    }
}
