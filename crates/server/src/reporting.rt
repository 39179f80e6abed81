//! Reports to the watcher what happened on a connection.
ghost use Rattle.std.specs.Prelude.{◌≡◌, ◌<◌, OnOk};
ghost use Rattle.host_core.specs.State.{most_connections, reports_at, with_reports};
ghost use Rattle.server.specs.Hosts.{host_at, with_host};
ghost use Rattle.server.specs.NumberTurns.{info_after, reported, reports_of, told_of};
ghost use Rattle.server.specs.Watching.{Told};

use crate::connection_info::ConnectionInfo;
use crate::hosts::Hosts;
use crate::watcher::Watcher;
use host_core::{Host, HostEvent};
use jobs::Fault;
use service_events::{Client, Notice};

/// Hands the watcher one event of a connection, except a question, which the exchange with the application reports, and
/// a close, which is reported when the connection is ended.
fn tell<W: Watcher>(
    event: HostEvent,
    host: &Host,
    conn: usize,
    client: &Client,
    watcher: &mut W,
) -> Result<(), Fault>
    requires number { conn < most_connections }
    ensures { Told W.noticed W.showed (told_of client.now conn host.now event) watcher.old result watcher.new }
{
    match event {
        HostEvent::Rejected(rejection) => watcher.notice(&Notice::Rejected(*client, rejection)),
        HostEvent::Bound(lu) => watcher.notice(&Notice::Bound(*client, lu)),
        HostEvent::KeyDropped(key) => watcher.notice(&Notice::KeyDropped(*client, key)),
        HostEvent::RuleBroken(broken) => watcher.notice(&Notice::RuleBroken(*client, broken)),
        HostEvent::CharacterReplaced => watcher.notice(&Notice::CharacterReplaced(*client)),
        HostEvent::ScreenRestored(why) => watcher.notice(&Notice::ScreenRestored(*client, why)),
        HostEvent::Shown => watcher.shown(host, conn),
        HostEvent::Asked | HostEvent::Closed(_) => Ok(()),
    }
}

/// Hands the watcher each event of a connection once, in the host's order, and records it. A fault of the watcher is
/// returned, and nothing is reported after it.
pub(crate) fn report<W: Watcher>(
    hosts: &mut Hosts,
    conn: usize,
    info: &mut ConnectionInfo,
    watcher: &mut W,
) -> Result<(), Fault>
    requires number { conn < most_connections }
    ensures told { Told W.noticed W.showed (reports_of info.old.client conn (host_at conn hosts.old)) watcher.old
        result watcher.new }
    ensures host { host_at conn hosts.new ≡ with_reports conn (reports_at conn (host_at conn hosts.new))
        (host_at conn hosts.old) }
    ensures others { hosts.new ≡ with_host conn (host_at conn hosts.new) hosts.old }
    ensures taken { OnOk result (host_at conn hosts.new ≡ reported conn (host_at conn hosts.old)) }
    ensures info { OnOk result (info.new ≡ info_after conn (host_at conn hosts.old) info.old) }
{
    // For the proof: each connection number is in the host's range.
    hosts.at(conn).hosts_are_sound();
    let client = info.client;
    while let Some(event) = hosts.next_event(conn) {
        info.take_down(&event);
        tell(event, hosts.at(conn), conn, &client, watcher)?;
    }
    Ok(())
}
