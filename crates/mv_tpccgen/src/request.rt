//! What the calls ask for.

use mv_values::list::List;

/// A district of a warehouse.
#[derive(Clone, Copy)]
pub(crate) struct District {
    pub(crate) warehouse: u32,
    pub(crate) number: u32,
}

/// A customer of a district.
#[derive(Clone, Copy)]
pub(crate) enum Customer {
    ByNumber(u32),
    /// By the number of the last name.
    ByName(u32),
}

/// A line of an order.
#[derive(Clone, Copy)]
pub(crate) struct Line {
    pub(crate) item: u32,
    pub(crate) supplier: u32,
    pub(crate) quantity: u32,
}

/// A call, with its arguments.
#[derive(Drop)]
pub(crate) enum Request {
    NewOrder {
        district: District,
        customer: u32,
        lines: List<Line>,
    },
    Payment {
        district: District,
        home: District,
        customer: Customer,
        amount: u32,
        entry: u32,
    },
    OrderStatus {
        district: District,
        customer: Customer,
    },
    Delivery {
        warehouse: u32,
        carrier: u32,
    },
    StockLevel {
        district: District,
        threshold: u32,
    },
}
