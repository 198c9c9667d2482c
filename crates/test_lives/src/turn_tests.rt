//! Tables without instances.
use alg_g711::G711;
use host_table::{EmptyTables, end_tables};

#[test]
fn tables_are_made_and_ended(rt: HostRuntime) {
    let empty = EmptyTables::<G711>::new(rt.alloc()).expect(&rt, "memory");
    let mut tables = empty.into_tables();
    let was_active = tables.deactivate_in(None, 3);
    assert!(rt; !was_active, "no member is active");
    assert!(rt; tables.groups[3].activations() == 0);
    end_tables(tables);
}
