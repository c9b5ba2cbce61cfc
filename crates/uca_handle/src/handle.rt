ghost use Rattle.std.specs.Prelude.{◌≡◌, Option, Some, None, IsTrue};
ghost use Rattle.std.specs.Coded.{coded_option};
ghost use Rattle.uca_model.specs.Table.{ElementTable};
ghost use Rattle.std_alloc.specs.declared.arc.Arc.{Arc};
ghost use Rattle.std.specs.Global.{Global};
ghost use Rattle.uca_handle.specs.Held.{arc_coded};
ghost use types.Logic.{sem};

use crate::loose::Loose;
use crate::opened::Opened;
use std::alloc::Global;
use std::marker::Model;
use std::ptr::null_mut;
use std::sync::Arc;

/// A table on the heap, with a count of its owners, behind a pointer without a type; or none. Letting a handle go does not free the
/// table: a collator does that first.
#[repr(C)]
#[derive(Drop)]
pub struct Handle {
    at: *mut u8,
    alloc: Global,
    pub ghost table: { Option (Arc ElementTable Global) } by { coded_option arc_coded },
}

impl Model for Handle {
    ghost use Rattle.uca_handle.specs.Held.{holds};

    ghost also_owns = { λ h. holds h.alloc h.at h.table };
}

impl Handle {
    ghost use Rattle.std.specs.Prelude.{is_some};
    ghost use Rattle.uca_handle.specs.Lending.{LendsTable};

    pub fn none(alloc: Global) -> Handle
        ensures { result.table ≡ None }
    {
        Handle {
            at: null_mut(),
            alloc,
        }
    }

    pub(crate) fn of(loose: Loose<Arc<Opened, Global>, Global>) -> Handle
        ensures { result.table ≡ Some loose.value }
    {
        let Loose { at, alloc } = loose;
        Handle {
            at: at as *mut u8,
            alloc,
        }
    }

    /// The table, where there is one. The handle is not written.
    pub(crate) fn get_mut(&mut self) -> &mut Arc<Opened, Global>
        requires { IsTrue (is_some self.old.table) }
        ensures* writes_back { sem 𝓛 (LendsTable self.entry result) }
        ensures value { Some result.now ≡ self.old.table }
    {
        let at = self.at as *mut Arc<Opened, Global>;
        unsafe { &mut *at }
    }

    pub(crate) fn into_loose(self) -> Loose<Arc<Opened, Global>, Global>
        requires { IsTrue (is_some self.table) }
        ensures { Some result.value ≡ self.table }
    {
        let Handle { at, alloc } = self;
        Loose {
            at: at as *mut Arc<Opened, Global>,
            alloc,
        }
    }
}

unsafe impl Send for Handle {}
