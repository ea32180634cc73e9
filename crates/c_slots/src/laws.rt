//! Laws of threads: what any thread may have, and what several may read at once.

ghost use denote.Param.Send.{IsSend, IsSync};
ghost use Rattle.c_slots.specs.contracts.chain_slot.Chain.{the_row as chain_row};
ghost use Rattle.c_slots.specs.contracts.chain_slot.ChainSlot.{the_row as chain_slot_row};
ghost use Rattle.c_slots.specs.contracts.conn_slot.ConnSlot.{the_row as conn_slot_row};
ghost use Rattle.c_slots.specs.contracts.conn_slot.Opened.{the_row as opened_row};
ghost use Rattle.c_slots.specs.contracts.filter_slot.FilterSlot.{the_row as filter_slot_row};
ghost use Rattle.c_slots.specs.contracts.proxy_slot.Core.{the_row as core_row};
ghost use Rattle.c_slots.specs.contracts.proxy_slot.ProxySlot.{the_row as proxy_slot_row};
ghost use Rattle.c_slots.specs.contracts.request_slot.Made.{the_row as made_row};
ghost use Rattle.c_slots.specs.contracts.request_slot.RequestSlot.{the_row as request_slot_row};
ghost use Rattle.rbac_policy.specs.contracts.filter.Admitted.{the_row as filter_row};

/// Any thread may have an admitted filter, and several threads may read it at once.
pub fn filter_crosses_threads()
    ensures moves { IsSend filter_row }
    ensures is_shared { IsSync filter_row }
{}

/// Any thread may have the core of a proxy.
pub fn core_crosses_threads()
    ensures { IsSend core_row }
{}

/// Any thread may have a connection, a request that was made, and a chain of filters.
pub fn kept_crosses_threads()
    ensures connection { IsSend opened_row }
    ensures request { IsSend made_row }
    ensures chain { IsSend chain_row }
{}

/// Any thread may have the room for a filter's owner, for a chain of filters, for a connection, for a request, and for a core.
pub fn slots_cross_threads()
    ensures filter { IsSend filter_slot_row }
    ensures chain { IsSend chain_slot_row }
    ensures connection { IsSend conn_slot_row }
    ensures request { IsSend request_slot_row }
    ensures proxy { IsSend proxy_slot_row }
{}
