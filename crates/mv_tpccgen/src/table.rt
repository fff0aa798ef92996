//! Which tables there are.

/// A table with rows for each customer, or for each order, of a district.
#[derive(Clone, Copy)]
pub(crate) enum PerDistrict {
    Customer,
    History,
    NewOrder,
    Orders,
    OrderLine,
}

/// A table.
#[derive(Clone, Copy)]
pub(crate) enum Table {
    Warehouse,
    District,
    InDistrict(PerDistrict),
    Item,
    Stock,
}
