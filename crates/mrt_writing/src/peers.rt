//! How peers, index tables and state changes are written (RFC 6396, 4.3.1 and 4.4.1).

ghost use Rattle.std.specs.Prelude.{◌≡◌, ◌^◌, ◌<◌, ◌++◌, length, map, OnOk};
ghost use Rattle.std.specs.List.{flat_map};
ghost use Rattle.bgp_update.specs.declared.width.Width.TheVariants.{Four};
ghost use Rattle.mrt_body.specs.Indexes.{index_bytes, peer_bytes};
ghost use Rattle.mrt_body.specs.Bgp4mp.{session_bytes};
ghost use Rattle.mrt_writing.specs.Heads.{written_index, written_peer, written_session, change_bytes};

use bgp_prefix::Memory;
use peer_units::{PeerAddr, PeerKey};

/// Appends a peer of an index table, with an AS number of four bytes.
fn push_peer(out: &mut Vec<u8>, peer: &PeerKey) -> Result<(), Memory>
    ensures { OnOk result (out.new.items ≡ out.old.items ++ peer_bytes (written_peer peer.now)) }
{
    match peer.addr {
        PeerAddr::V4(addr) => {
            out.extend_from_slice(&[2, 0, 0, 0, 0])?;
            out.extend_from_slice(&addr.to_be_bytes())?;
        }
        PeerAddr::V6(addr) => {
            out.extend_from_slice(&[3, 0, 0, 0, 0])?;
            out.extend_from_slice(&addr.to_be_bytes())?;
        }
    }
    out.extend_from_slice(&peer.asn.to_be_bytes())?;
    Ok(())
}

/// Appends the peers of an index table.
fn push_peers(out: &mut Vec<u8>, peers: &[PeerKey]) -> Result<(), Memory>
    ensures { OnOk result (out.new.items ≡ out.old.items ++ flat_map (λ p. peer_bytes (written_peer p)) peers.now) }
{
    for peer in peers {
        push_peer(out, peer)?;
    }
    Ok(())
}

/// Appends the body of an index table of these peers, in this order: the numbers of entries' peers are theirs.
#[tactic(auto, using(crate::proofs::PartLaws::index_written))]
pub fn push_index(out: &mut Vec<u8>, peers: &[PeerKey]) -> Result<(), Memory>
    requires { length peers.now < 256 ^ 2 }
    ensures { OnOk result (out.new.items ≡ out.old.items ++ index_bytes (written_index peers.now)) }
{
    out.extend_from_slice(&[0, 0, 0, 0, 0, 0])?;
    out.extend_from_slice(&(peers.len() as u16).to_be_bytes())?;
    push_peers(out, peers)
}

/// Appends what stands before a state change or a message of a peer, with AS numbers of four bytes.
pub(crate) fn push_session(out: &mut Vec<u8>, peer: &PeerKey) -> Result<(), Memory>
    ensures { OnOk result (out.new.items ≡ out.old.items ++ session_bytes Four (written_session peer.now)) }
{
    out.extend_from_slice(&peer.asn.to_be_bytes())?;
    match peer.addr {
        PeerAddr::V4(addr) => {
            out.extend_from_slice(&[0, 0, 0, 0, 0, 0, 0, 1])?;
            out.extend_from_slice(&addr.to_be_bytes())?;
            out.extend_from_slice(&[0; 4])?;
        }
        PeerAddr::V6(addr) => {
            out.extend_from_slice(&[0, 0, 0, 0, 0, 0, 0, 2])?;
            out.extend_from_slice(&addr.to_be_bytes())?;
            out.extend_from_slice(&[0; 16])?;
        }
    }
    Ok(())
}

/// Appends the body of a peer's state change: from Established to itself where the peer is up, and else to Idle.
pub fn push_state_change(out: &mut Vec<u8>, peer: &PeerKey, up: bool) -> Result<(), Memory>
    ensures { OnOk result (out.new.items ≡ out.old.items ++ change_bytes peer.now up) }
{
    push_session(out, peer)?;
    let after = if up { 6 } else { 1 };
    out.extend_from_slice(&[0, 6, 0, after])?;
    Ok(())
}
